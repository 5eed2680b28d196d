// All cells of a text, from the last to the first.
ghost use Rattle.std.specs.Prelude.{◌≡◌, ◌≤◌, length};
ghost use Rattle.reader.specs.Emit.Cells.{cell, emit_cell, emitted};
ghost use Rattle.reader.specs.Emit.Emits.{Turns, Room, table_cells, EmittedCells, and_state, equal_state};

use crate::emit::{
    Behind, Emission, close_bracket, disjunction, emit_functor, emit_head, emit_symbol,
    emit_variable, end_clause, end_fact, goal_constant, goal_functor, goal_plain, goal_variable,
    head_functor, next_argument, open_bracket, shut, whole,
};
use crate::roles::Role;
use records::kinds::{FAILURE, SYMBOL, TRUTH};

// A comma behind a primary, and = behind a left side.
fn conjunction(e: Emission) -> Emission
    ensures { result ≡ and_state e }
{
    Emission {
        behind: Behind {
            comma: true,
            ..e.behind
        },
        ..e
    }
}

fn equality(e: Emission) -> Emission
    ensures { result ≡ equal_state e }
{
    Emission { equal: true, ..e }
}

// One cell in front.
fn emit_cell(
    out: &mut [u8],
    counts: &mut [u8],
    brackets: &mut [Behind],
    e: Emission,
    role: Role,
    name: usize,
    v: u8,
) -> Emission
    requires { Room out.old counts.old brackets.old e }
    ensures { Turns out.old counts.old brackets.old e out.new counts.new brackets.new result (emit_cell (cell role name v)) }
{
    match role {
        Role::Variable => emit_variable(out, e, v),
        Role::Constant => emit_symbol(out, e, SYMBOL, name, 0),
        Role::Functor => emit_functor(out, counts, e, SYMBOL, name),
        Role::GoalVariable => goal_variable(out, e, v),
        Role::GoalConstant => goal_constant(out, e, name),
        Role::GoalFunctor => goal_functor(out, counts, e, name),
        Role::Truth => goal_plain(out, e, TRUTH),
        Role::Failure => goal_plain(out, e, FAILURE),
        Role::Head => emit_head(out, e, name, 0),
        Role::HeadFunctor => head_functor(out, counts, e, name),
        Role::Shut => shut(counts, e),
        Role::Next => next_argument(counts, e),
        Role::And => conjunction(e),
        Role::Or => disjunction(out, e),
        Role::Equal => equality(e),
        Role::Open => open_bracket(out, brackets, e),
        Role::Close => close_bracket(brackets, e),
        Role::Neck => whole(out, e),
        Role::Fact => end_fact(out, e, v),
        Role::Rule => end_clause(e, v),
    }
}

// The cells that the tables hold, from the last to the first.
pub fn emit_cells(out: &mut [u8], roles: &[Role], names: &[u16], variables: &[u8]) -> Emission
    requires count_bound { length roles.now ≤ 65535 }
    requires count_in_bounds { (length roles.now ≤ length names.now) × (length roles.now ≤ length variables.now) }
    ensures { EmittedCells (length out.old) out.new result (emitted (table_cells roles.now names.now variables.now 0 (length roles.now))) }
{
    let mut counts = [0u8; 65536];
    let mut brackets = [Behind::NOTHING; 65536];
    let mut e = Emission {
        at: out.len(),
        over: false,
        clauses: 0,
        terms: 0,
        goals: 0,
        behind: Behind::NOTHING,
        equal: false,
        variables: 0,
    };
    for i in (0..roles.len()).rev() {
        let name = usize::from(names[i]);
        e = emit_cell(
            out,
            &mut counts,
            &mut brackets,
            e,
            roles[i],
            name,
            variables[i],
        );
    }
    e
}
