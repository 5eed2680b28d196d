// The unifier of an event's equality under its bets.
ghost use Rattle.records.specs.Gate.Gate.{read_event};
ghost use Rattle.terms_cases.specs.Equalities.{EqualityAt, EqualityReplied, equality_of};

use records::door::event_door;
use records::ends::term_end;
use records::heads::{GoalHead, goal_head};
use records::places::event_places;
use records::put::Range;
use records::questions::Refusal;
use terms::equality::unifier_under;

// The unifier of the sides of the equality that the event's goal is.
fn unify_goal(event: &[u8], out: &mut [u8]) -> Result<Option<Option<usize>>, Refusal>
    requires { EqualityAt event.now }
    ensures { EqualityReplied (equality_of (read_event event.now)) out.old out.new result }
{
    let places = event_places(event);
    let Some(middle) = term_end(event, 5) else {
        return Ok(None);
    };
    let goal = places.goal;
    let bets = places.bets;
    let left = Range {
        from: 5,
        to: middle,
    };
    let right = Range {
        from: middle,
        to: goal.to,
    };
    Ok(Some(unifier_under(event, bets.from, bets.count, left, right, out)?))
}

// What the event's equality comes to, for every slice; none where the event's goal is no equality.
pub fn unify_case(event: &[u8], out: &mut [u8]) -> Result<Option<Option<usize>>, Refusal>
    ensures { EqualityReplied (equality_of (read_event event.now)) out.old out.new result }
{
    event_door(event)?;
    let Some(head) = goal_head(event, 4) else {
        return Ok(None);
    };
    let GoalHead::Equal = head else {
        return Ok(None);
    };
    unify_goal(event, out)
}
