// Whether an event is a door of another one: a call of the same goal with the same ancestors.
ghost use Rattle.std.specs.Prelude.{◌≡◌};
ghost use Rattle.records.specs.Format.Syntax.{Event};
ghost use Rattle.records.specs.Gate.Gate.{tree, read_event};
ghost use Rattle.goal_door.specs.Form.GoalDoor.{is_door};
ghost use Rattle.goal_door.specs.Way.Going.{goal_and_ancestors, PlacesOf};

use records::compare::same_range;
use records::kinds::CALL;
use records::places::Places;
use records::put::Range;

// From the goal on to the end of the ancestors: a record has them one after the other.
fn goal_and_ancestors(p: Places) -> Range
    ensures { result ≡ goal_and_ancestors p }
{
    let goal = p.goal;
    let ancestors = p.ancestors;
    Range {
        from: goal.from,
        to: ancestors.to,
    }
}

// Whether the event of `here` is a door of that of `event`; of both records the places of the parts are known.
pub fn is_door(event: &[u8], sought: Places, here: &[u8], found: Places) -> bool
    requires places_of { PlacesOf event.now sought }
    requires places_of_2 { PlacesOf here.now found }
    ensures { (e d : Event) → read_event event.now ≡ tree e → read_event here.now ≡ tree d → result ≡ is_door e d }
{
    if found.port != CALL {
        return false;
    }
    same_range(
        event,
        goal_and_ancestors(sought),
        here,
        goal_and_ancestors(found),
    )
}
