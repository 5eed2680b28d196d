// Steps back: which rule an event has the right side of, and the plan of its left side.
// Whether fail of an equality or of an atom comes from call, is for the unifier and the definition to say.
#![tactic(auto, unfolding(crate::specs::Plans::WhichRule::call_source, crate::specs::Plans::WhichRule::exit_source, crate::specs::Plans::WhichRule::fail_source, crate::specs::Plans::WhichRule::redo_source, crate::specs::Plans::WhichRule::back_rule, crate::specs::Plans::RulePlans::back_plan))]

ghost use Rattle.std.specs.Prelude.{◌≡◌};
ghost use Rattle.stepper.specs.Plans.WhichRule.{call_source, exit_source, fail_source, redo_source, back_rule};
ghost use Rattle.stepper.specs.Plans.RulePlans.{back_plan};

use crate::layouts::{
    atom_left, atom_left_by, bet_dropped, body_entered, chosen, entered, kept, left, left_with_or,
    reached,
};
use crate::rules::Rule;
use crate::view::View;
use records::kinds::*;
use records::plan::Plan;

// To call, by the ancestor on top.
fn call_source(kind: u8, tag: u8) -> Option<Rule>
    ensures { result ≡ call_source kind tag }
{
    match (kind, tag) {
        (IN_CONJ, FIRST) => Some(Rule::ConjCall),
        (IN_CONJ, _) => Some(Rule::ConjExitFirst),
        (IN_DISJ, FIRST) => Some(Rule::DisjCall),
        (IN_DISJ, _) => Some(Rule::DisjFailFirst),
        (ATOM, _) => Some(Rule::AtomCall),
        _ => None,
    }
}

// To exit, by the goal and the bet on top.
fn exit_source(kind: u8, bet: u8, tag: u8) -> Option<Rule>
    ensures { result ≡ exit_source kind bet tag }
{
    match (kind, bet, tag) {
        (TRUTH, _, _) => Some(Rule::TrueCall),
        (EQUAL, UNIFIER, _) => Some(Rule::EqualCall),
        (CONJ, _, _) => Some(Rule::ConjExitSecond),
        (DISJ, OR, FIRST) => Some(Rule::DisjExitFirst),
        (DISJ, OR, _) => Some(Rule::DisjExitSecond),
        (ATOM, BY, _) => Some(Rule::AtomExit),
        _ => None,
    }
}

// To fail, by the goal.
fn fail_source(kind: u8) -> Option<Rule>
    ensures { result ≡ fail_source kind }
{
    match kind {
        TRUTH => Some(Rule::TrueRedo),
        FAILURE => Some(Rule::FailCall),
        EQUAL => Some(Rule::EqualRedo),
        CONJ => Some(Rule::ConjFailFirst),
        DISJ => Some(Rule::DisjFailSecond),
        ATOM => Some(Rule::AtomFail),
        _ => None,
    }
}

// To redo, by the ancestor on top.
fn redo_source(kind: u8, tag: u8) -> Option<Rule>
    ensures { result ≡ redo_source kind tag }
{
    match (kind, tag) {
        (IN_CONJ, FIRST) => Some(Rule::ConjFailSecond),
        (IN_CONJ, _) => Some(Rule::ConjRedo),
        (IN_DISJ, _) => Some(Rule::DisjRedo),
        (ATOM, _) => Some(Rule::AtomRedo),
        _ => None,
    }
}

// The rule whose right side has the kinds and tags of the event.
pub fn back_rule(v: View) -> Option<Rule>
    ensures { result ≡ back_rule v }
{
    match v.port {
        CALL => call_source(v.ancestor.kind, v.ancestor.tag),
        EXIT => exit_source(v.goal.kind, v.bet.kind, v.bet.tag),
        FAIL => fail_source(v.goal.kind),
        REDO => redo_source(v.ancestor.kind, v.ancestor.tag),
        _ => None,
    }
}

// The plan of the rule, read back; fail of an equality and of an atom goes to call.
pub fn back_plan(v: View, rule: Option<Rule>) -> Plan
    ensures { result ≡ back_plan v rule }
{
    match rule {
        Some(Rule::ConjCall) => left(v, CALL, CONJ),
        Some(Rule::ConjExitFirst) => reached(v, EXIT, IN_CONJ, FIRST),
        Some(Rule::ConjFailFirst) => entered(v, FAIL, IN_CONJ, FIRST),
        Some(Rule::ConjExitSecond) => entered(v, EXIT, IN_CONJ, SECOND),
        Some(Rule::ConjFailSecond) => reached(v, FAIL, IN_CONJ, SECOND),
        Some(Rule::ConjRedo) => left(v, REDO, CONJ),
        Some(Rule::DisjCall) => left(v, CALL, DISJ),
        Some(Rule::DisjFailFirst) => reached(v, FAIL, IN_DISJ, FIRST),
        Some(Rule::DisjFailSecond) => entered(v, FAIL, IN_DISJ, SECOND),
        Some(Rule::DisjExitFirst) => chosen(v, EXIT),
        Some(Rule::DisjExitSecond) => chosen(v, EXIT),
        Some(Rule::DisjRedo) => left_with_or(v, REDO),
        Some(Rule::TrueRedo) => kept(v, REDO),
        Some(Rule::EqualCall) => bet_dropped(v, CALL),
        Some(Rule::AtomCall) => atom_left(v, CALL),
        Some(Rule::AtomExit) => body_entered(v, EXIT),
        Some(Rule::AtomRedo) => atom_left_by(v, REDO),
        _ => kept(v, CALL),
    }
}
