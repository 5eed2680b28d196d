// The last question 7 of a step back, where it is a comparison: is the unifier on the bets the equality's, is the goal the atom's body?
ghost use Rattle.std.specs.Prelude.{◌≡◌};
ghost use Rattle.terms.specs.Theory.Outcome.{unified_under};
ghost use Rattle.terms.specs.Body.Body.{body};
ghost use Rattle.records.specs.Ends.Range.{Inside, cut};
ghost use Rattle.records.specs.Ends.Same.{same_bytes};
ghost use Rattle.records.specs.Format.Heads.{pick};
ghost use Rattle.records.specs.Gate.Reply.{outcome_number};
ghost use Rattle.stepper.specs.Step.AtomStep.{ProgramRead};
ghost use Rattle.stepper.specs.Step.LastSeven.{unifier_number, body_number, UnifierViewed, BodyViewed, ancestor_frame};

use crate::view::View;
use records::compare::same_range;
use records::kinds::RECORD_LIMIT;
use records::put::Range;
use records::questions::Refusal;
use terms::body::{BodyRefusal, atom_body};
use terms::equality::{UnifierRefusal, unifier_under};
use terms::variables::Frame;

// Question 7: has a range of the event the first n bytes of the other source?
fn same_front(other: &[u8], n: usize, event: &[u8], range: Range) -> Result<(), Refusal>
    requires inside { Inside (record { from = 0; to = n }) other.now }
    requires inside_2 { Inside range event.now }
    ensures { outcome_number result ≡ pick (same_bytes (cut other.now (record { from = 0; to = n })) (cut event.now range)) 0 7 }
{
    let front = Range { from: 0, to: n };
    if same_range(other, front, event, range) {
        Ok(())
    } else {
        Err(Refusal::Matches)
    }
}

// Exit of an equality: question 8 refuses a value that is too long, question 7 a bet on top that is not the unifier.
pub fn same_unifier(event: &[u8], v: View) -> Result<(), Refusal>
    requires { UnifierViewed event.now v }
    ensures { (w : UnifierViewed event.now v) → outcome_number result ≡ unifier_number (unified_under w.bets w.left w.right) w.bindings }
{
    let mut unifier: [u8; RECORD_LIMIT] = [0; RECORD_LIMIT];
    let answer = unifier_under(
        event,
        v.bets.rest,
        v.bets.fewer,
        v.goal.first(),
        v.goal.second(),
        &mut unifier,
    );
    match answer {
        Ok(Some(n)) => same_front(&unifier, n, event, v.bet.content()),
        Ok(None) => Err(Refusal::Matches),
        Err(UnifierRefusal::TooLong) => Err(Refusal::Matches),
        Err(UnifierRefusal::TooLarge) => Err(Refusal::Values),
    }
}

// The frame of the atom that the goal stands under.
fn ancestor_frame(v: View) -> Frame
    ensures { result ≡ ancestor_frame v }
{
    Frame {
        goal: v.ancestor.from,
        ancestors: v.ancestors.rest,
        depth: v.ancestors.fewer,
        bets: v.bets.from,
        height: v.bets.count,
    }
}

// Call of a goal under an atom: question 9 refuses a local that is too high, question 7 a goal that is not the atom's body.
pub fn same_body(program: &[u8], event: &[u8], v: View) -> Result<(), Refusal>
    requires program_read { ProgramRead program.now }
    requires body_viewed { BodyViewed event.now v }
    ensures { (d : ProgramRead program.now) (w : BodyViewed event.now v) → outcome_number result ≡ body_number (body d.definitions w.predicate w.terms w.ancestors w.bets) w.goal }
{
    let mut buffer: [u8; RECORD_LIMIT] = [0; RECORD_LIMIT];
    match atom_body(program, event, ancestor_frame(v), &mut buffer) {
        Ok(Some(n)) => same_front(&buffer, n, event, v.goal.whole()),
        Ok(None) => Err(Refusal::Matches),
        Err(BodyRefusal::TooLong) => Err(Refusal::Matches),
        Err(BodyRefusal::TooMany) => Err(Refusal::Locals),
    }
}
