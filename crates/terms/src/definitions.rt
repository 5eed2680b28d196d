// Where the definition of a predicate and an arity stands in a program.
ghost use Rattle.std.specs.Prelude.{◌≡◌, ◌&&◌, eqb};
ghost use Rattle.terms.specs.Body.Definitions.{ProgramAt, DefinitionAt, DefinitionsAt, EntryAt, find_definition};

use records::ends::definition_end;
use records::heads::{definition_head, word_at};

// What a definition starts with, and where it ends.
#[derive(Clone, Copy)]
pub struct DefinitionHead {
    pub predicate: usize,
    pub arity: usize,
    pub locals: usize,
    pub end: usize,
}

// A definition's place among the definitions, from 0, where it starts, its locals, where its goal starts, and where both end.
#[derive(Clone, Copy)]
pub struct Place {
    pub index: usize,
    pub start: usize,
    pub locals: usize,
    pub goal: usize,
    pub end: usize,
}

// The definition that stands at `at`.
fn entry_at(program: &[u8], at: usize) -> Option<DefinitionHead>
    requires { DefinitionAt program.now at }
    ensures { (d : DefinitionAt program.now at) → EntryAt d result }
{
    let signature = definition_head(program, at)?;
    Some(DefinitionHead {
        predicate: signature.predicate,
        arity: signature.arity,
        locals: signature.count,
        end: definition_end(program, at)?,
    })
}

// Whether it defines the predicate p of arity k.
fn defines(d: DefinitionHead, p: usize, k: usize) -> bool
    ensures { result ≡ (eqb p d.predicate && eqb k d.arity) }
{
    p == d.predicate && k == d.arity
}

// The definition of p of arity k among the n of a program.
fn among(program: &[u8], n: usize, p: usize, k: usize) -> Option<Place>
    requires { DefinitionsAt program.now 5 n }
    ensures { (ds : DefinitionsAt program.now 5 n) → result ≡ find_definition 5 0 ds.items p k }
{
    let mut at = 5;
    for i in 0..n {
        let d = entry_at(program, at)?;
        if defines(d, p, k) {
            return Some(Place {
                index: i,
                start: at,
                locals: d.locals,
                goal: at + 4,
                end: d.end,
            });
        }
        at = d.end;
    }
    None
}

pub fn find_definition(program: &[u8], p: usize, k: usize) -> Option<Place>
    requires { ProgramAt program.now }
    ensures { (d : ProgramAt program.now) → result ≡ find_definition 5 0 d.definitions p k }
{
    match word_at(program, 3) {
        Some(n) => among(program, n, p, k),
        None => None,
    }
}
