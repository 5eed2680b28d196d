// Where the parts of an accepted record stand.
ghost use Rattle.std.specs.Prelude.{◌≡◌};
ghost use Rattle.records.specs.Format.Syntax.{Event};
ghost use Rattle.records.specs.Gate.Gate.{Accepted, read_event};
ghost use Rattle.records.specs.Gate.Gate.Reading.{tree};
ghost use Rattle.records.specs.Ends.Places.{RowAt, RowTo, GoalRange, EndsOf, event_places};

use crate::ends::{Item, goals_end, items_end};
use crate::heads::word_at;
use crate::put::Range;

// A row of items: how many, and from where to where.
#[derive(Clone, Copy)]
pub struct Row {
    pub count: usize,
    pub from: usize,
    pub to: usize,
}

// An event: its port, its goal and its two stacks, tops first.
#[derive(Clone, Copy)]
pub struct Places {
    pub port: u8,
    pub goal: Range,
    pub ancestors: Row,
    pub bets: Row,
}

// Where an event's goal and its ancestors end; its bets end where the record does.
#[derive(Clone, Copy)]
pub struct PartEnds {
    pub goal: usize,
    pub ancestors: usize,
}

// Where there is no row.
const NO_ROW: Row = Row {
    count: 0,
    from: 0,
    to: 0,
};

// The row of items whose count stands at `at`.
fn row_place(s: &[u8], at: usize, item: Item) -> Row
    ensures { RowAt s.now at item result }
{
    let Some(count) = word_at(s, at) else {
        return NO_ROW;
    };
    let Some(to) = items_end(s, at + 2, item, count) else {
        return NO_ROW;
    };
    Row {
        count,
        from: at + 2,
        to,
    }
}

// The row of items whose count stands at `at` and which is known to end at `to`: nothing is gone through.
fn row_to(s: &[u8], at: usize, to: usize) -> Row
    ensures { RowTo s.now at to result }
{
    match word_at(s, at) {
        Some(count) => Row {
            count,
            from: at + 2,
            to,
        },
        None => NO_ROW,
    }
}

fn goal_place(s: &[u8], at: usize) -> Range
    ensures { GoalRange s.now at result }
{
    Range {
        from: at,
        to: goals_end(s, at, 1).unwrap_or(at),
    }
}

// The ends of an accepted event's parts: its goal and its ancestors are gone through.
pub fn part_ends(s: &[u8]) -> PartEnds
    requires { Accepted (read_event s.now) }
    ensures { EndsOf s.now result }
{
    let goal = goal_place(s, 4);
    let ancestors = row_place(s, goal.to, Item::Ancestor);
    PartEnds {
        goal: goal.to,
        ancestors: ancestors.to,
    }
}

// The parts of an accepted event, by their ends: nothing is gone through.
pub fn places_by(s: &[u8], ends: PartEnds) -> Places
    requires accepted { Accepted (read_event s.now) }
    requires ends_of { EndsOf s.now ends }
    ensures { (e : Event) → read_event s.now ≡ tree e → result ≡ event_places e }
{
    let port = s[3];
    let goal = Range {
        from: 4,
        to: ends.goal,
    };
    let ancestors = row_to(s, ends.goal, ends.ancestors);
    let bets = row_to(s, ends.ancestors, s.len());
    Places {
        port,
        goal,
        ancestors,
        bets,
    }
}

// The parts of an accepted event.
pub fn event_places(s: &[u8]) -> Places
    requires { Accepted (read_event s.now) }
    ensures { (e : Event) → read_event s.now ≡ tree e → result ≡ event_places e }
{
    places_by(s, part_ends(s))
}
