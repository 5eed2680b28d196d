// A term or a goal under a substitution, from bytes to bytes: the one writer for values, for the bodies of atoms and for renamed clauses.
ghost use Rattle.std.specs.Prelude.{◌+◌, ◌≤◌, ◌<◌, length};
ghost use Rattle.records.specs.Format.Encode.{term_bytes};
ghost use Rattle.records.specs.Writing.Patched.{Put};
ghost use Rattle.records.specs.Ends.Range.{cut, Inside};
ghost use Rattle.records.specs.Ends.Steps.{On};
ghost use Rattle.records.specs.Format.Syntax.Term.{var};
ghost use Rattle.records.specs.Ends.Traversal.{traverse};
ghost use Rattle.terms.specs.Body.Body.{numbered};
ghost use Rattle.terms.specs.Theory.Substitution.{Substitution, apply};
ghost use Rattle.terms.specs.Values.Fitted.{Fitted};
ghost use Rattle.terms.specs.Values.NodeBytes.{traversal_bytes};
ghost use Rattle.terms.specs.Values.Entries.{PairTable, FoundPair};
ghost use Rattle.terms.specs.Values.Links.{PairsLinked};
ghost use Rattle.terms.specs.Values.Pairs.{Tabled, Linked};
ghost use Rattle.terms.specs.Values.Replacing.{ArgumentsOf, Replaces, LinkedIn, ValueFound};

use crate::arguments::argument;
use crate::links::look_from;
use crate::pairs::PairList;
use records::heads::{TermHead, term_head, word_at};
use records::kinds::VARIABLE;
use records::put::{Range, put_byte, put_range, put_word};
use records::traverse::{Cursor, NodeStep, next_node};

// The terms of an argument list that stand in the event, by the table of their places; what is behind them are new variables, from `next` on.
#[derive(Clone, Copy)]
pub struct Numbering<'a> {
    pub event: &'a [u8],
    pub table: &'a [usize],
    pub next: usize,
}

// What variables become: by the pairs of a bet stack, or by the terms of an argument list.
#[derive(Clone, Copy)]
pub enum Replacing<'a> {
    Pairs(PairList<'a>),
    Numbered(Numbering<'a>),
}

// The writers here tell how many bytes they wrote, or none where these are more than the output holds.

// The bytes of a range of a source, at the start of the output.
pub fn put_piece(out: &mut [u8], src: &[u8], range: Range) -> Option<usize>
    requires { Inside range src.now }
    ensures { Fitted out.old (cut src.now range) out.new result }
{
    if out.len() < range.to - range.from {
        return None;
    }
    Some(put_range(out, 0, src, range))
}

// How long a variable is.
pub const VARIABLE_SIZE: usize = 3;

pub fn write_variable(out: &mut [u8], at: usize, v: usize) -> usize
    requires { at + 3 ≤ length out.old }
    ensures { Put out.old at (term_bytes (var v)) out.new result }
{
    let next = put_byte(out, at, VARIABLE);
    put_word(out, next, v)
}

// The variable v itself, at the start of the output.
fn put_itself(out: &mut [u8], v: usize) -> Option<usize>
    ensures { Fitted out.old (term_bytes (var v)) out.new result }
{
    if out.len() < VARIABLE_SIZE {
        return None;
    }
    Some(write_variable(out, 0, v))
}

// What the variable v of a definition becomes: an argument, or a new variable.
fn put_numbered(out: &mut [u8], by: Numbering<'_>, v: usize) -> Option<usize>
    requires arguments_of { ArgumentsOf by }
    requires next_bound { (by.next ≤ 65536) × (v < 65536) }
    ensures { (a : ArgumentsOf by.entry) → Fitted out.old (term_bytes (numbered a.listed.terms by.entry.next v)) out.new result }
{
    let k = by.table.len() - 1;
    if v < k {
        let range = argument(by.table, v);
        return put_piece(out, by.event, range);
    }
    put_itself(out, by.next + (v - k))
}

// Where, among the first i pairs of a table, the last one stands that binds v.
fn find_pair(pairs: PairList<'_>, i: usize, v: usize) -> Option<usize>
    requires i_in_bounds { i ≤ length pairs.entries.now }
    requires pairs_linked { PairsLinked pairs.event.now pairs.entries.now i pairs.links.now }
    ensures { (p : PairTable pairs.entry.event.now pairs.entry.entries.now i) → FoundPair p.bets i v result }
{
    for k in (0..look_from(pairs.links, i, v)).rev() {
        let Some(x) = word_at(pairs.event, pairs.entries[k].place) else {
            return None;
        };
        if x == v {
            return Some(k);
        }
    }
    None
}

// A variable that no pair binds, or where the term stands that one is bound to, and how many pairs the bets above it have.
#[derive(Clone, Copy)]
pub enum Bound {
    Free(usize),
    To { term: usize, above: usize },
}

// What the pairs bind v to, along those that bind it to a variable in their turn. So a chain of variables costs no stack.
fn find_value(pairs: PairList<'_>, v: usize) -> Bound
    requires pair_table { Tabled pairs }
    requires pairs_linked { Linked pairs }
    ensures { (p : Tabled pairs.entry) → ValueFound pairs.entry (apply p.bets (var v)) result }
{
    let mut n = pairs.entries.len();
    let mut x = v;
    loop {
        let Some(k) = find_pair(pairs, n, x) else {
            return Bound::Free(x);
        };
        let pair = pairs.entries[k];
        let term = pair.place + 2;
        let Some(TermHead::Variable(y)) = term_head(pairs.event, term) else {
            return Bound::To {
                term,
                above: pair.first,
            };
        };
        n = pair.first;
        x = y;
    }
}

// What the variable v becomes, at the start of the output. A pair's term is under the pairs of the bets above its own, which are fewer.
#[cycle(put_nodes_put_variable)]
fn put_variable(by: Replacing<'_>, v: usize, out: &mut [u8]) -> Option<usize>
    requires replaces { (θ : Substitution) × Replaces by θ }
    requires linked { LinkedIn by }
    requires v_bound { v < 65536 }
    ensures { (θ : Substitution) → Replaces by.entry θ → Fitted out.old (term_bytes (θ v)) out.new result }
{
    match by {
        Replacing::Numbered(numbering) => put_numbered(out, numbering, v),
        Replacing::Pairs(pairs) => match find_value(pairs, v) {
            Bound::Free(x) => put_itself(out, x),
            Bound::To { term, above } => {
                let by = Replacing::Pairs(PairList {
                    entries: &pairs.entries[..above],
                    ..pairs
                });
                put_nodes(by, pairs.event, Cursor::term(term), out)
            }
        },
    }
}

// What a traversal of s goes over, its variables replaced, at the start of the output.
#[cycle(put_nodes_put_variable)]
pub fn put_nodes(by: Replacing<'_>, s: &[u8], start: Cursor, out: &mut [u8]) -> Option<usize>
    requires replaces { (θ : Substitution) × Replaces by θ }
    requires linked { LinkedIn by }
    requires on { On (traverse s.now start.pos start.terms start.goals) }
    ensures { (θ : Substitution) → Replaces by.entry θ → Fitted out.old (traversal_bytes θ (traverse s.now start.pos start.terms start.goals)) out.new result }
{
    let mut c = start;
    let mut len = 0;
    while let Some(step) = next_node(s, c) {
        match step {
            NodeStep::Variable(v, next) => {
                let m = put_variable(by, v, &mut out[len..])?;
                len += m;
                c = next;
            }
            NodeStep::Other(next) => {
                let piece = Range {
                    from: c.pos,
                    to: next.pos,
                };
                let m = put_piece(&mut out[len..], s, piece)?;
                len += m;
                c = next;
            }
        }
    }
    Some(len)
}
