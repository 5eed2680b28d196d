// The rules that look beyond an event's parts: the call of an equality and of an atom, and fail of either read back. Each goes one of two ways.
// What such a rule adds to the event is written straight into its place of the output, and the record is completed around it.
ghost use Rattle.std.specs.Prelude.{◌≡◌, ◌≤◌, length};
ghost use Rattle.records.specs.Format.Syntax.{Port};
ghost use Rattle.records.specs.Format.Encode.{port_byte};
ghost use Rattle.stepper.specs.Step.Stepped.{Stepped};
ghost use Rattle.stepper.specs.Step.AtomStep.{settled_atom, ProgramRead, AtomViewed, goal_frame};
ghost use Rattle.stepper.specs.Step.EqualityStep.{settled_equality, EqualityViewed};

use crate::around::{gap, with_body, with_unifier};
use crate::emit::{StepAnswer, emit_event};
use crate::layouts::kept;
use crate::view::View;
use records::put::Range;
use terms::body::atom_body;
use terms::equality::unifier_under;
use terms::variables::Frame;

// An equality goes to one port if its terms have no unifier, else to the other with the unifier put on the bets.
pub fn settle_equality(event: &[u8], v: View, clash: u8, found: u8, out: &mut [u8]) -> StepAnswer
    requires equality_viewed { EqualityViewed event.now v }
    requires in_bounds { 32768 ≤ length out.old }
    ensures { (w : EqualityViewed event.now v) (p q : Port) → port_byte p ≡ clash → port_byte q ≡ found → Stepped (settled_equality p q w.left w.right w.ancestors w.bets) out.old result out.new }
{
    let Range { from, to } = gap(v.bets.from + 1, event.len() + 1);
    let unifier = unifier_under(
        event,
        v.bets.from,
        v.bets.count,
        v.goal.first(),
        v.goal.second(),
        &mut out[from..to],
    )?;
    match unifier {
        None => emit_event(out, kept(v, clash), event),
        Some(n) => Ok(with_unifier(event, v, found, n, out)),
    }
}

// The frame of the atom that is the goal.
fn goal_frame(v: View) -> Frame
    ensures { result ≡ goal_frame v }
{
    Frame {
        goal: v.goal.from,
        ancestors: v.ancestors.from,
        depth: v.ancestors.count,
        bets: v.bets.from,
        height: v.bets.count,
    }
}

// An atom goes to one port if it has no definition, else its body, under it, to the other.
// Not one function with `settle_equality`: ranges, frame, answer and the record around it differ, and the gap alone is shared.
pub fn settle_atom(
    program: &[u8],
    event: &[u8],
    v: View,
    undefined: u8,
    defined: u8,
    out: &mut [u8],
) -> StepAnswer
    requires program_read { ProgramRead program.now }
    requires atom_viewed { AtomViewed event.now v }
    requires in_bounds { 32768 ≤ length out.old }
    ensures { (d : ProgramRead program.now) (w : AtomViewed event.now v) (p q : Port) → port_byte p ≡ undefined → port_byte q ≡ defined → Stepped (settled_atom d.definitions p q w.predicate w.terms w.ancestors w.bets) out.old result out.new }
{
    let Range { from, to } = gap(v.goal.from, event.len());
    let body = atom_body(program, event, goal_frame(v), &mut out[from..to])?;
    match body {
        None => emit_event(out, kept(v, undefined), event),
        Some(n) => Ok(with_body(event, v, defined, n, out)),
    }
}
