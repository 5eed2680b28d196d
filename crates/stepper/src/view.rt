// What a rule looks at in an accepted event: its port, the parts of its goal and of the tops of its stacks, and where the stacks go on.
#![tactic(auto, unfolding(crate::specs::Plans::View::middle_at, crate::specs::Plans::View::ancestor_part_at, crate::specs::Plans::View::bet_part_at, crate::specs::Plans::View::ancestor_top_at, crate::specs::Plans::View::bet_top_at))]

ghost use Rattle.std.specs.Prelude.{◌≡◌, ◌+◌, ◌-◌, ◌<◌, length};
ghost use Rattle.records.specs.Format.Syntax.{Event};
ghost use Rattle.records.specs.Gate.Gate.{Accepted, read_event, tree};
ghost use Rattle.records.specs.Ends.Places.{EndsOf};
ghost use Rattle.stepper.specs.Plans.View.{middle_at, untagged_part, tagged_part, goal_part_at, ancestor_part_at, bet_part_at, no_part, TopInside, ancestor_top_at, bet_top_at, stack_at, event_view};

use records::ends::{ancestor_end, bet_end, goals_end, position, term_end};
use records::kinds::*;
use records::places::{PartEnds, Row, places_by};
use records::put::Range;

// A goal, an ancestor or a bet: its kind byte and its tag (0 where it has none); where it starts, where it goes on after kind and tag, where
// its second half or term starts (its end where it has none), and where it ends. All numbers are 0 but the places where there is none.
#[derive(Clone, Copy)]
pub struct Part {
    pub kind: u8,
    pub tag: u8,
    pub from: usize,
    pub content: usize,
    pub middle: usize,
    pub to: usize,
}

impl Part {
    // All of it.
    pub(crate) fn whole(self) -> Range
        ensures { result ≡ record { from = self.from; to = self.to } }
    {
        Range {
            from: self.from,
            to: self.to,
        }
    }

    // What follows its kind and tag.
    pub(crate) fn content(self) -> Range
        ensures { result ≡ record { from = self.content; to = self.to } }
    {
        Range {
            from: self.content,
            to: self.to,
        }
    }

    // The first half or term of its content.
    pub(crate) fn first(self) -> Range
        ensures { result ≡ record { from = self.content; to = self.middle } }
    {
        Range {
            from: self.content,
            to: self.middle,
        }
    }

    // The second.
    pub(crate) fn second(self) -> Range
        ensures { result ≡ record { from = self.middle; to = self.to } }
    {
        Range {
            from: self.middle,
            to: self.to,
        }
    }
}

// A stack: its count, the counts with one more and with one less on it, where its items start, where they go on after the top, where they end.
#[derive(Clone, Copy)]
pub struct StackPlaces {
    pub count: usize,
    pub more: usize,
    pub fewer: usize,
    pub from: usize,
    pub rest: usize,
    pub to: usize,
}

impl StackPlaces {
    // All its items.
    pub(crate) fn items(self) -> Range
        ensures { result ≡ record { from = self.from; to = self.to } }
    {
        Range {
            from: self.from,
            to: self.to,
        }
    }

    // Those under its top.
    pub(crate) fn below_top(self) -> Range
        ensures { result ≡ record { from = self.rest; to = self.to } }
    {
        Range {
            from: self.rest,
            to: self.to,
        }
    }
}

// An event: its port, its goal, its stacks with their tops. The port is its byte, as are kinds and tags, since they are written again as they were read.
#[derive(Clone, Copy)]
pub struct View {
    pub port: u8,
    pub goal: Part,
    pub ancestor: Part,
    pub ancestors: StackPlaces,
    pub bet: Part,
    pub bets: StackPlaces,
}

// Where the second half or term starts of a goal of this kind, whose content starts at `at` and which ends at `to`.
fn middle(s: &[u8], at: usize, kind: u8, to: usize) -> usize
    ensures { result ≡ middle_at s.now at kind to }
{
    match kind {
        EQUAL => position(term_end(s, at)),
        CONJ | DISJ => position(goals_end(s, at, 1)),
        _ => to,
    }
}

// A part whose kind byte stands alone, and one with a tag behind it.
fn untagged_part(kind: u8, from: usize, middle: usize, to: usize) -> Part
    requires { from < 18446744073709551615 }
    ensures { result ≡ untagged_part kind from middle to }
{
    Part {
        kind,
        tag: 0,
        from,
        content: from + 1,
        middle,
        to,
    }
}

fn tagged_part(kind: u8, tag: u8, from: usize, middle: usize, to: usize) -> Part
    requires { from + 1 < 18446744073709551615 }
    ensures { result ≡ tagged_part kind tag from middle to }
{
    Part {
        kind,
        tag,
        from,
        content: from + 2,
        middle,
        to,
    }
}

// No part, at the place where it would start.
fn no_part(at: usize) -> Part
    ensures { result ≡ no_part at }
{
    Part {
        kind: 0,
        tag: 0,
        from: at,
        content: at,
        middle: at,
        to: at,
    }
}

fn goal_part(s: &[u8], goal: Range) -> Part
    requires { goal.from < length s.now }
    ensures { result ≡ goal_part_at s.now goal }
{
    let kind = s[goal.from];
    let second = middle(s, goal.from + 1, kind, goal.to);
    untagged_part(kind, goal.from, second, goal.to)
}

fn ancestor_part(s: &[u8], at: usize) -> Part
    requires { at + 1 < length s.now }
    ensures { result ≡ ancestor_part_at s.now at }
{
    let kind = s[at];
    let to = position(ancestor_end(s, at));
    if kind == ATOM {
        untagged_part(kind, at, to, to)
    } else {
        let second = position(goals_end(s, at + 2, 1));
        tagged_part(kind, s[at + 1], at, second, to)
    }
}

fn bet_part(s: &[u8], at: usize) -> Part
    requires { at + 1 < length s.now }
    ensures { result ≡ bet_part_at s.now at }
{
    let kind = s[at];
    let to = position(bet_end(s, at));
    if kind == OR {
        tagged_part(kind, s[at + 1], at, to, to)
    } else {
        untagged_part(kind, at, to, to)
    }
}

// Not one function with `bet_top`: the closure that finds the part would carry the contract of `ancestor_part` again at its call.
fn ancestor_top(s: &[u8], row: Row) -> Part
    requires { TopInside row s.now }
    ensures { result ≡ ancestor_top_at s.now row }
{
    if row.count == 0 {
        no_part(row.from)
    } else {
        ancestor_part(s, row.from)
    }
}

fn bet_top(s: &[u8], row: Row) -> Part
    requires { TopInside row s.now }
    ensures { result ≡ bet_top_at s.now row }
{
    if row.count == 0 {
        no_part(row.from)
    } else {
        bet_part(s, row.from)
    }
}

// A stack whose top ends at `rest`.
fn stack_places(row: Row, rest: usize) -> StackPlaces
    requires { row.count < 65536 }
    ensures { result ≡ stack_at row rest }
{
    StackPlaces {
        count: row.count,
        more: row.count + 1,
        fewer: row.count.saturating_sub(1),
        from: row.from,
        rest,
        to: row.to,
    }
}

// What a rule looks at, by the ends of the event's parts.
pub fn event_view(event: &[u8], ends: PartEnds) -> View
    requires accepted { Accepted (read_event event.now) }
    requires ends_of { EndsOf event.now ends }
    ensures { (e : Event) → read_event event.now ≡ tree e → result ≡ event_view e }
{
    let places = places_by(event, ends);
    let goal = goal_part(event, places.goal);
    let ancestor = ancestor_top(event, places.ancestors);
    let ancestors = stack_places(places.ancestors, ancestor.to);
    let bet = bet_top(event, places.bets);
    let bets = stack_places(places.bets, bet.to);
    View {
        port: places.port,
        goal,
        ancestor,
        ancestors,
        bet,
        bets,
    }
}
