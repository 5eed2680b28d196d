// Steps forward: which rule an event has the left side of, and the plan of that rule.
// Whether the goal is the half that its tag selects is not looked at here.
#![tactic(auto, unfolding(crate::specs::Plans::WhichRule::call_rule, crate::specs::Plans::WhichRule::exit_rule, crate::specs::Plans::WhichRule::fail_rule, crate::specs::Plans::WhichRule::redo_rule, crate::specs::Plans::WhichRule::forward_rule, crate::specs::Plans::RulePlans::forward_plan))]

ghost use Rattle.std.specs.Prelude.{◌≡◌};
ghost use Rattle.stepper.specs.Plans.WhichRule.{call_rule, exit_rule, fail_rule, redo_rule, forward_rule};
ghost use Rattle.stepper.specs.Plans.RulePlans.{forward_plan};

use crate::layouts::{
    atom_left, atom_left_by, bet_dropped, body_entered, chosen, entered, kept, left, left_with_or,
    reached,
};
use crate::rules::Rule;
use crate::view::View;
use records::kinds::*;
use records::plan::Plan;

// From call, by the goal.
fn call_rule(kind: u8) -> Option<Rule>
    ensures { result ≡ call_rule kind }
{
    match kind {
        TRUTH => Some(Rule::TrueCall),
        FAILURE => Some(Rule::FailCall),
        EQUAL => Some(Rule::EqualCall),
        CONJ => Some(Rule::ConjCall),
        DISJ => Some(Rule::DisjCall),
        ATOM => Some(Rule::AtomCall),
        _ => None,
    }
}

// From exit, by the ancestor on top.
fn exit_rule(kind: u8, tag: u8) -> Option<Rule>
    ensures { result ≡ exit_rule kind tag }
{
    match (kind, tag) {
        (IN_CONJ, FIRST) => Some(Rule::ConjExitFirst),
        (IN_CONJ, _) => Some(Rule::ConjExitSecond),
        (IN_DISJ, FIRST) => Some(Rule::DisjExitFirst),
        (IN_DISJ, _) => Some(Rule::DisjExitSecond),
        (ATOM, _) => Some(Rule::AtomExit),
        _ => None,
    }
}

// From fail, by the ancestor on top.
fn fail_rule(kind: u8, tag: u8) -> Option<Rule>
    ensures { result ≡ fail_rule kind tag }
{
    match (kind, tag) {
        (IN_CONJ, FIRST) => Some(Rule::ConjFailFirst),
        (IN_CONJ, _) => Some(Rule::ConjFailSecond),
        (IN_DISJ, FIRST) => Some(Rule::DisjFailFirst),
        (IN_DISJ, _) => Some(Rule::DisjFailSecond),
        (ATOM, _) => Some(Rule::AtomFail),
        _ => None,
    }
}

// From redo, by the goal and the bet on top.
fn redo_rule(kind: u8, bet: u8) -> Option<Rule>
    ensures { result ≡ redo_rule kind bet }
{
    match (kind, bet) {
        (TRUTH, _) => Some(Rule::TrueRedo),
        (EQUAL, UNIFIER) => Some(Rule::EqualRedo),
        (CONJ, _) => Some(Rule::ConjRedo),
        (DISJ, OR) => Some(Rule::DisjRedo),
        (ATOM, BY) => Some(Rule::AtomRedo),
        _ => None,
    }
}

// The rule whose left side has the kinds and tags of the event.
pub fn forward_rule(v: View) -> Option<Rule>
    ensures { result ≡ forward_rule v }
{
    match v.port {
        CALL => call_rule(v.goal.kind),
        EXIT => exit_rule(v.ancestor.kind, v.ancestor.tag),
        FAIL => fail_rule(v.ancestor.kind, v.ancestor.tag),
        REDO => redo_rule(v.goal.kind, v.bet.kind),
        _ => None,
    }
}

// The plan of the rule; an equality and an atom fail by that of call.
pub fn forward_plan(v: View, rule: Option<Rule>) -> Plan
    ensures { result ≡ forward_plan v rule }
{
    match rule {
        Some(Rule::ConjCall) => entered(v, CALL, IN_CONJ, FIRST),
        Some(Rule::ConjExitFirst) => reached(v, CALL, IN_CONJ, SECOND),
        Some(Rule::ConjFailFirst) => left(v, FAIL, CONJ),
        Some(Rule::ConjExitSecond) => left(v, EXIT, CONJ),
        Some(Rule::ConjFailSecond) => reached(v, REDO, IN_CONJ, FIRST),
        Some(Rule::ConjRedo) => entered(v, REDO, IN_CONJ, SECOND),
        Some(Rule::DisjCall) => entered(v, CALL, IN_DISJ, FIRST),
        Some(Rule::DisjFailFirst) => reached(v, CALL, IN_DISJ, SECOND),
        Some(Rule::DisjFailSecond) => left(v, FAIL, DISJ),
        Some(Rule::DisjExitFirst) => left_with_or(v, EXIT),
        Some(Rule::DisjExitSecond) => left_with_or(v, EXIT),
        Some(Rule::DisjRedo) => chosen(v, REDO),
        Some(Rule::TrueCall) => kept(v, EXIT),
        Some(Rule::EqualRedo) => bet_dropped(v, FAIL),
        Some(Rule::AtomExit) => atom_left_by(v, EXIT),
        Some(Rule::AtomFail) => atom_left(v, FAIL),
        Some(Rule::AtomRedo) => body_entered(v, REDO),
        _ => kept(v, FAIL),
    }
}
