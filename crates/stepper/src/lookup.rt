// The definition that an event's goal names, handed back as a part of the lent program.
ghost use Rattle.std.specs.Prelude.{◌≡◌, List};
ghost use Rattle.records.specs.Format.Syntax.{Event, Definition};
ghost use Rattle.records.specs.Gate.Gate.{Accepted, read_event, read_program, tree};
ghost use Rattle.stepper.specs.Services.Lookup.{empty, definition_part, lookup, range_of, named_part, LookedUp};

use records::door::door;
use records::heads::{GoalHead, goal_head};
use records::places::event_places;
use records::put::Range;
use terms::definitions::find_definition;

// No bytes, at the start.
fn nowhere() -> Range
    ensures { result ≡ range_of empty }
{
    Range { from: 0, to: 0 }
}

// From where to where the definition of p of arity k stands in an accepted program.
fn definition_range(program: &[u8], p: usize, k: usize) -> Range
    requires { Accepted (read_program program.now) }
    ensures { (ds : List Definition) → read_program program.now ≡ tree ds → result ≡ range_of (definition_part 5 ds p k) }
{
    match find_definition(program, p, k) {
        None => nowhere(),
        Some(place) => Range {
            from: place.start,
            to: place.end,
        },
    }
}

// The same for what the goal of an accepted event names: nothing if it is no atom.
fn named_range(program: &[u8], event: &[u8]) -> Range
    requires accepted { Accepted (read_program program.now) }
    requires accepted_2 { Accepted (read_event event.now) }
    ensures { (ds : List Definition) (e : Event) → read_program program.now ≡ tree ds → read_event event.now ≡ tree e → result ≡ range_of (named_part ds e) }
{
    let places = event_places(event);
    let Some(head) = goal_head(event, places.goal.from) else {
        return nowhere();
    };
    let GoalHead::Atom(p, k) = head else {
        return nowhere();
    };
    definition_range(program, p, k)
}

// The same for all input: nothing if a record is refused.
pub fn lookup_range(program: &[u8], event: &[u8]) -> Range
    ensures { result ≡ range_of (lookup program.now event.now) }
{
    match door(program, event) {
        Ok(()) => named_range(program, event),
        Err(_) => nowhere(),
    }
}

// The definition's part of the program: empty where there is none, because a question said no, the goal is another kind of goal, or the program has
// no such definition, and nowhere else.
pub fn lookup<'p, 'e>(program: &'p [u8], event: &'e [u8]) -> &'p [u8]
    ensures { LookedUp result program.entry event.now }
{
    let range = lookup_range(program, event);
    let from = range.from;
    let to = range.to;
    &program[from..to]
}
