// Question 7 for a goal under a conjunction or a disjunction.
ghost use Rattle.std.specs.Prelude.{◌≡◌};
ghost use Rattle.records.specs.Gate.Reply.{outcome_number};
ghost use Rattle.stepper.specs.Plans.Halves.{HalfInside, is_half, HalfWhere, half_refusal};

use crate::layouts::half_piece;
use crate::view::View;
use records::compare::same_range;
use records::kinds::{IN_CONJ, IN_DISJ};
use records::questions::Refusal;

// Whether the goal is the half that the ancestor on top selects.
pub fn is_half(event: &[u8], v: View) -> bool
    requires { HalfInside v event.now }
    ensures { result ≡ is_half event.now v }
{
    let half = half_piece(v.ancestor, v.ancestor.tag);
    same_range(event, v.goal.whole(), event, half.range)
}

// Question 7 for a step that leaves a half, which it does from one of two ports: it refuses a goal that is not the half that the ancestor on top
// selects.
#[tactic(auto, unfolding(crate::specs::Plans::Halves::half_refusal, crate::specs::Plans::Halves::either))]
pub fn half_refusal(event: &[u8], v: View, one: u8, other: u8) -> Result<(), Refusal>
    requires { HalfWhere v event.now }
    ensures { outcome_number result ≡ half_refusal event.now v one other }
{
    let leaves = (v.port == one || v.port == other) && matches!(v.ancestor.kind, IN_CONJ | IN_DISJ);
    if leaves && !is_half(event, v) {
        Err(Refusal::Matches)
    } else {
        Ok(())
    }
}
