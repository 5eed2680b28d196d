// The body of an atom: its definition's goal, with the head's variables become the atom's arguments and the locals new variables.
// It is measured before it is written, and nothing is written where it does not fit.
ghost use Rattle.std.specs.Prelude.{◌≡◌, ℕ, ◌+◌, ◌-◌, ◌<◌, ◌≤◌, ◌^◌, min, length};
ghost use Rattle.records.specs.Format.Syntax.{arity};
ghost use Rattle.records.specs.Format.Encode.{term_bytes, goal_bytes};
ghost use Rattle.records.specs.Gate.Question.{refusal_number};
ghost use Rattle.terms.specs.Body.Arguments.{TermsOf};
ghost use Rattle.terms.specs.Body.Body.{numbered, defined, locals_beyond, body, next_variable};
ghost use Rattle.terms.specs.Standing.Frames.{GoalAt};
ghost use Rattle.terms.specs.Body.Definitions.{ProgramAt};
ghost use Rattle.terms.specs.Values.Replacing.{ArgumentsOf};
ghost use Rattle.terms.specs.Body.BodyBytes.{AtomAt, as_refusal, body_refusal, numbered_goal, body_with, BodyAnswered};

use crate::arguments::{Arguments, argument, list_arguments};
use crate::definitions::{Place, find_definition};
use crate::greatest::next_variable;
use crate::substitute::{Numbering, Replacing, VARIABLE_SIZE, put_nodes};
use crate::tables::ARGUMENT_PLACES;
use crate::variables::Frame;
use records::heads::{GoalHead, goal_head};
use records::questions::Refusal;
use records::traverse::{Cursor, NodeStep, next_node};

// Question 9 says no, or the output is too short for the body: question 10.
#[derive(Clone, Copy)]
pub enum BodyRefusal {
    TooMany,
    TooLong,
}

// How many bytes the body has, or none where there is no definition.
pub type BodyAnswer = Result<Option<usize>, BodyRefusal>;

impl From<BodyRefusal> for Refusal {
    ghost from_gives = { λ b r. (r ≡ as_refusal b) × (refusal_number r ≡ body_refusal b) };

    fn from(refusal: BodyRefusal) -> Refusal {
        match refusal {
            BodyRefusal::TooMany => Refusal::Locals,
            BodyRefusal::TooLong => Refusal::Fits,
        }
    }
}

// The length of what the variable v of a definition becomes: an argument, or a new variable.
fn numbered_length(table: &[usize], v: usize) -> usize
    requires { TermsOf table.now }
    ensures { (t : TermsOf table.now) (m : ℕ) → result ≡ length (term_bytes (numbered t.terms m v)) }
{
    let k = table.len() - 1;
    if v < k {
        let range = argument(table, v);
        return range.to - range.from;
    }
    VARIABLE_SIZE
}

// n + more, but at most one more than the room.
fn added(n: usize, more: usize, room: usize) -> usize
    requires { (n ≤ room) × (room + 1 < 2 ^ 64) }
    ensures { result ≡ min (room + 1) (n + more) }
{
    n.saturating_add(more).min(room + 1)
}

// The length of the goal that stands in the program, numbered; room + 1 where it is more than the room. No `for`: the traversal and the room end it.
fn body_length(program: &[u8], goal: usize, table: &[usize], room: usize) -> usize
    requires goal_at { GoalAt program.now goal }
    requires term_table { TermsOf table.now }
    requires room_bound { room + 1 < 2 ^ 64 }
    ensures { (g : GoalAt program.now goal) (t : TermsOf table.now) (m : ℕ) → result ≡ min (room + 1) (length (goal_bytes (numbered_goal t.terms m g.item))) }
{
    let mut c = Cursor::goal(goal);
    let mut n = 0;
    while n <= room {
        let Some(step) = next_node(program, c) else {
            return n;
        };
        match step {
            NodeStep::Variable(v, next) => {
                n = added(n, numbered_length(table, v), room);
                c = next;
            }
            NodeStep::Other(next) => {
                n = added(n, next.pos - c.pos, room);
                c = next;
            }
        }
    }
    n
}

// The numbered goal and its length: it is measured, refused where the output is too short for it, and then written.
fn numbered_body(program: &[u8], goal: usize, by: Numbering<'_>, out: &mut [u8]) -> BodyAnswer
    requires goal_at { GoalAt program.now goal }
    requires arguments_of { ArgumentsOf by }
    requires next_bound { by.next ≤ 65536 }
    ensures { (g : GoalAt program.now goal) (a : ArgumentsOf by.entry) → BodyAnswered out.old out.new (defined (numbered_goal a.listed.terms by.entry.next g.item)) result }
{
    let n = body_length(program, goal, by.table, out.len());
    if out.len() < n {
        return Err(BodyRefusal::TooLong);
    }
    let start = Cursor {
        pos: goal,
        terms: 0,
        goals: 1,
    };
    put_nodes(Replacing::Numbered(by), program, start, out);
    Ok(Some(n))
}

// How many numbers there are for variables.
const NUMBERS: usize = 65536;

// Question 9: would one of the locals from m on be above 65,535?
fn locals_beyond(m: usize, locals: usize) -> bool
    requires { m + locals < 2 ^ 64 }
    ensures { result ≡ locals_beyond m locals }
{
    0 < locals && NUMBERS < m + locals
}

// The body by the definition at a place.
fn body_with(
    program: &[u8],
    place: Place,
    event: &[u8],
    frame: Frame,
    k: usize,
    out: &mut [u8],
) -> BodyAnswer
    requires goal_at { (GoalAt program.now place.goal) × (place.locals < 256) }
    requires terms_value { (a : AtomAt event.now frame) × (arity a.terms ≡ k) }
    ensures { (g : GoalAt program.now place.goal) (a : AtomAt event.now frame) → arity a.terms ≡ k → BodyAnswered out.old out.new (body_with place.locals g.item a.terms (next_variable a.frame.goal.item a.frame.ancestors.items a.frame.bets.items)) result }
{
    let m = next_variable(event, frame);
    let locals = place.locals;
    if locals_beyond(m, locals) {
        return Err(BodyRefusal::TooMany);
    }
    let args = Arguments {
        at: frame.goal + 4,
        arity: k,
    };
    let mut table: [usize; ARGUMENT_PLACES] = [0; ARGUMENT_PLACES];
    list_arguments(event, args, &mut table);
    let by = Numbering {
        event,
        table: &table[..=k],
        next: m,
    };
    numbered_body(program, place.goal, by, out)
}

// The body of the atom that an event's goal is, written from the start of the output on.
pub fn atom_body(program: &[u8], event: &[u8], frame: Frame, out: &mut [u8]) -> BodyAnswer
    requires program_at { ProgramAt program.now }
    requires atom_at { AtomAt event.now frame }
    ensures { (d : ProgramAt program.now) (a : AtomAt event.now frame) → BodyAnswered out.old out.new (body d.definitions a.predicate a.terms a.frame.ancestors.items a.frame.bets.items) result }
{
    let goal = frame.goal;
    let Some(head) = goal_head(event, goal) else {
        return Ok(None);
    };
    let GoalHead::Atom(p, k) = head else {
        return Ok(None);
    };
    match find_definition(program, p, k) {
        None => Ok(None),
        Some(place) => body_with(program, place, event, frame, k, out),
    }
}
