// The way back to the door of a goal: runs back from call to call with as many ancestors, each compared.
ghost use Rattle.std.specs.Prelude.{List, ◌≡◌, ◌+◌, ◌<◌, ◌^◌, length};
ghost use Rattle.records.specs.Ends.Places.{EndsOf};
ghost use Rattle.records.specs.Format.Syntax.{Event, Definition};
ghost use Rattle.records.specs.Gate.Door.{BothPassed};
ghost use Rattle.records.specs.Gate.Question.{refusal_number};
ghost use Rattle.stepper.specs.Rules.Rules.{step_back};
ghost use Rattle.stepper.specs.Services.Desk.{layers};
ghost use Rattle.stepper.specs.Services.Services.{machine};
ghost use Rattle.goal_door.specs.Form.GoalDoor.{to_door};
ghost use Rattle.goal_door.specs.Form.NextCall.{call_order};
ghost use Rattle.goal_door.specs.Way.Going.{way_at, next_number, PlacesOf, WayStands, WayTurned, WayEnded};

use crate::door::is_door;
use records::kinds::RECORD_LIMIT;
use records::places::{PartEnds, Places, part_ends, places_by};
use records::put::put_part;
use records::questions::Refusal;
use std::ops::ControlFlow;
use stepper::run::{RunAim, RunAnswer, RunOrder, RunStop, run_here};
use stepper::step::source_event;

// Where the way stands: the steps made, and of the record of the event reached the length and where its parts end.
// There is no heap: the record is at the front of a buffer that is lent, so its length stands here.
#[derive(Clone, Copy)]
pub struct Standing {
    pub taken: u32,
    pub length: usize,
    pub ends: PartEnds,
}

// The way that is asked for: under a program, back from an event whose parts have these places, of so many steps at most.
// That they have is a clause of the two functions that take it: as a ghost field it would need a lemma, that it has one proof, longer than both.
#[derive(Clone, Copy)]
struct Way<'a> {
    program: &'a [u8],
    event: &'a [u8],
    places: Places,
    limit: u32,
}

// Where the way has ended: at the door, or where a question refuses to go on.
#[derive(Clone, Copy)]
pub struct WayEnd {
    pub outcome: Result<(), Refusal>,
    pub standing: Standing,
}

// Back to the next call with so many ancestors, with no log.
fn call_order(ancestors: usize) -> RunOrder
    ensures { result ≡ call_order ancestors }
{
    RunOrder {
        back: true,
        aim: Some(RunAim {
            call: true,
            ancestors,
            ..RunAim::default()
        }),
        ..RunOrder::default()
    }
}

// What ends the way where the limit is spent: the question that refuses the next step back, and the limit where it would be made.
fn next_refusal(program: &[u8], event: &[u8], ends: PartEnds) -> Refusal
    requires both_passed { BothPassed program.now event.now }
    requires ends_of { EndsOf event.now ends }
    ensures { (w : BothPassed program.now event.now) → refusal_number result ≡ next_number (step_back (machine layers w.definitions) w.event) }
{
    let mut source: [u8; RECORD_LIMIT] = [0; RECORD_LIMIT];
    match source_event(program, event, ends, &mut source) {
        Ok(_) => Refusal::Allowed,
        Err(refusal) => refusal,
    }
}

// The way behind a run.
fn way_at(last: Standing, r: RunAnswer) -> Standing
    requires { last.taken + r.taken < 2 ^ 32 }
    ensures { result ≡ way_at last r }
{
    let ends = r.ends;
    Standing {
        taken: last.taken + r.taken,
        length: r.length,
        ends,
    }
}

// The next turn of the way: a run back to the next call with as many ancestors, which may be the door. Where there is none, a question of the step that
// would be next says why, or the limit is spent.
fn next_call(way: Way, last: Standing, here: &mut [u8]) -> ControlFlow<WayEnd, Standing>
    requires way_stands { (ds : List Definition) × (e : Event) × WayStands way.program.now way.event.now ds e way.limit last here.old }
    requires places_of { PlacesOf way.event.now way.places }
    requires here_len { length here.old ≡ 32768 }
    ensures { (ds : List Definition) (e : Event) → WayStands way.entry.program.now way.entry.event.now ds e way.entry.limit last here.old → WayTurned way.entry.program.now way.entry.event.now ds e way.entry.limit last result here.new }
{
    let left = way.limit - last.taken;
    let order = call_order(way.places.ancestors.count);
    let r = run_here(way.program, here, last.length, last.ends, order, left);
    let standing = way_at(last, r);
    let n = r.length;
    match r.stop {
        RunStop::Met => {
            let found = places_by(&here[..n], r.ends);
            if !is_door(way.event, way.places, &here[..n], found) {
                return ControlFlow::Continue(standing);
            }
            let outcome = Ok(());
            ControlFlow::Break(WayEnd { outcome, standing })
        }
        RunStop::Refused(refusal) => {
            let outcome = Err(refusal);
            ControlFlow::Break(WayEnd { outcome, standing })
        }
        RunStop::Spent | RunStop::Full => {
            let outcome = Err(next_refusal(way.program, &here[..n], r.ends));
            ControlFlow::Break(WayEnd { outcome, standing })
        }
    }
}

// The way from where it stands to its end.
fn go_back(way: Way, first: Standing, here: &mut [u8]) -> WayEnd
    requires way_stands { (ds : List Definition) × (e : Event) × WayStands way.program.now way.event.now ds e way.limit first here.old }
    requires places_of { PlacesOf way.event.now way.places }
    requires here_len { length here.old ≡ 32768 }
    ensures { (ds : List Definition) (e : Event) → WayStands way.entry.program.now way.entry.event.now ds e way.entry.limit first here.old → WayEnded (to_door (machine layers ds) way.entry.limit e) result here.new }
{
    let mut last = first;
    loop {
        match next_call(way, last, here) {
            ControlFlow::Continue(next) => last = next,
            ControlFlow::Break(end) => return end,
        }
    }
}

// The way from an accepted event to its door under an accepted program. The record of the event reached is left at the front of `here`.
pub fn way_back(program: &[u8], event: &[u8], limit: u32, here: &mut [u8]) -> WayEnd
    requires both_passed { BothPassed program.now event.now }
    requires here_len { length here.old ≡ 32768 }
    ensures { (w : BothPassed program.now event.now) → WayEnded (to_door (machine layers w.definitions) limit w.event) result here.new }
{
    let length = put_part(here, 0, event);
    let ends = part_ends(event);
    let places = places_by(event, ends);
    let first = Standing {
        taken: 0,
        length,
        ends,
    };
    if is_door(event, places, event, places) {
        return WayEnd {
            outcome: Ok(()),
            standing: first,
        };
    }
    let way = Way {
        program,
        event,
        places,
        limit,
    };
    go_back(way, first, here)
}
