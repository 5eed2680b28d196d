// A step inside a run, from an accepted event under an accepted program: forward to the next event, back to the one it came from.
// Nothing is validated again, the stacks are not walked to find their ends, and the dispatch is flat. The output passes question 5.
// What is relied on stands in each contract, here and in `settle`, `same` and `run`, and in no type: a type of checked records would ask more of who calls
// the public ones.
ghost use Rattle.std.specs.Prelude.{◌≡◌, ◌≤◌, length};
ghost use Rattle.stepper.specs.Rules.Rules.{step, step_forward, step_back};
ghost use Rattle.stepper.specs.Services.Services.{machine};
ghost use Rattle.stepper.specs.Services.Desk.{layers};
ghost use Rattle.records.specs.Gate.Question.{refusal_number};
ghost use Rattle.stepper.specs.Plans.Dispatch.{no_rule_number, no_source_number};
ghost use Rattle.records.specs.Ends.Places.{EndsOf};
ghost use Rattle.stepper.specs.Step.Stepped.{Stepped, BothPassed};
ghost use Rattle.stepper.specs.Run.RunLoop.{direction};

use crate::back::{back_plan, back_rule};
use crate::emit::{StepAnswer, emit_event};
use crate::forward::{forward_plan, forward_rule};
use crate::half::half_refusal;
use crate::rules::Rule;
use crate::same::{same_body, same_unifier};
use crate::settle::{settle_atom, settle_equality};
use crate::view::{View, event_view};
use records::kinds::*;
use records::places::PartEnds;
use records::questions::Refusal;

// The question that refuses where no rule has the event as its left side: 6 from exit and fail, else 7.
#[tactic(auto, unfolding(crate::specs::Plans::Dispatch::no_rule_number))]
fn no_rule(v: View) -> Refusal
    ensures { refusal_number result ≡ no_rule_number v }
{
    match v.port {
        EXIT | FAIL => Refusal::Possible,
        _ => Refusal::Matches,
    }
}

// The question that refuses where no rule has the event as its right side: 6 from call without bets (then it has no ancestors either), else 7.
#[tactic(auto, unfolding(crate::specs::Plans::Dispatch::no_source_number))]
fn no_source(v: View) -> Refusal
    ensures { refusal_number result ≡ no_source_number v }
{
    if v.port == CALL && v.bets.count == 0 {
        Refusal::Possible
    } else {
        Refusal::Matches
    }
}

// One step forward.
pub fn next_event(program: &[u8], event: &[u8], ends: PartEnds, out: &mut [u8]) -> StepAnswer
    requires both_passed { BothPassed program.now event.now }
    requires ends_of { EndsOf event.now ends }
    requires in_bounds { 32768 ≤ length out.old }
    ensures { (w : BothPassed program.now event.now) → Stepped (step_forward (machine layers w.definitions) w.event) out.old result out.new }
{
    let v = event_view(event, ends);
    let found = forward_rule(v);
    let Some(rule) = found else {
        return Err(no_rule(v));
    };
    match rule {
        Rule::EqualCall => settle_equality(event, v, FAIL, EXIT, out),
        Rule::AtomCall => settle_atom(program, event, v, FAIL, CALL, out),
        _ => {
            half_refusal(event, v, EXIT, FAIL)?;
            emit_event(out, forward_plan(v, found), event)
        }
    }
}

// One step back.
pub fn source_event(program: &[u8], event: &[u8], ends: PartEnds, out: &mut [u8]) -> StepAnswer
    requires both_passed { BothPassed program.now event.now }
    requires ends_of { EndsOf event.now ends }
    requires in_bounds { 32768 ≤ length out.old }
    ensures { (w : BothPassed program.now event.now) → Stepped (step_back (machine layers w.definitions) w.event) out.old result out.new }
{
    let v = event_view(event, ends);
    let found = back_rule(v);
    let Some(rule) = found else {
        return Err(no_source(v));
    };
    match rule {
        Rule::EqualCall => {
            same_unifier(event, v)?;
            emit_event(out, back_plan(v, found), event)
        }
        Rule::EqualRedo => settle_equality(event, v, CALL, REDO, out),
        Rule::AtomCall => {
            same_body(program, event, v)?;
            emit_event(out, back_plan(v, found), event)
        }
        Rule::AtomFail => settle_atom(program, event, v, CALL, FAIL, out),
        _ => {
            half_refusal(event, v, CALL, REDO)?;
            emit_event(out, back_plan(v, found), event)
        }
    }
}

// One step in a direction. By a bool: a closure would need the contract of a step again at each call.
pub(crate) fn step_on(
    program: &[u8],
    event: &[u8],
    ends: PartEnds,
    back: bool,
    out: &mut [u8],
) -> StepAnswer
    requires both_passed { BothPassed program.now event.now }
    requires ends_of { EndsOf event.now ends }
    requires in_bounds { 32768 ≤ length out.old }
    ensures { (w : BothPassed program.now event.now) → Stepped (step (machine layers w.definitions) (direction back) w.event) out.old result out.new }
{
    if back {
        source_event(program, event, ends, out)
    } else {
        next_event(program, event, ends, out)
    }
}
