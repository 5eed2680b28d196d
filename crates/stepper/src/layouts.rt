// The plans of the rules whose result is made of parts of the event itself. A layout serves each rule, in either direction, that moves the
// event's parts in the same way; the port, and the kind where two kinds share a layout, are told to it.
#![tactic(auto, unfolding(crate::specs::Plans::Layouts::half_piece, crate::specs::Plans::Layouts::pushed, crate::specs::Plans::Layouts::replaced, crate::specs::Plans::Layouts::plan_of))]

ghost use Rattle.std.specs.Prelude.{◌≡◌};
ghost use Rattle.stepper.specs.Plans.Layouts.{whole, half_piece, content_of, led, retagged, by_goal, or_tag};
ghost use Rattle.stepper.specs.Plans.Layouts.{unchanged, dropped, pushed, replaced};
ghost use Rattle.stepper.specs.Plans.Layouts.{kept, bet_dropped, entered, chosen, reached};
ghost use Rattle.stepper.specs.Plans.Layouts.{left, left_with_or, atom_left, atom_left_by, body_entered};

use crate::view::{Part, StackPlaces, View};
use records::kinds::*;
use records::plan::{Lead, Piece, Plan, Stack};
use records::put::Range;

// No bytes, at the start.
pub(crate) const NO_BYTES: Range = Range { from: 0, to: 0 };

// In place of a piece where there is none.
pub(crate) const NOTHING: Piece = Piece {
    lead: Lead::Bare,
    range: NO_BYTES,
};

// A part as it stands.
fn whole(part: Part) -> Piece
    ensures { result ≡ whole part }
{
    Piece {
        lead: Lead::Bare,
        range: part.whole(),
    }
}

// The half of it that a tag selects.
pub fn half_piece(part: Part, tag: u8) -> Piece
    ensures { result ≡ half_piece part tag }
{
    Piece {
        lead: Lead::Bare,
        range: if tag == FIRST {
            part.first()
        } else {
            part.second()
        },
    }
}

// What follows its kind and tag.
fn content_of(part: Part) -> Piece
    ensures { result ≡ content_of part }
{
    Piece {
        lead: Lead::Bare,
        range: part.content(),
    }
}

// Its content under another kind.
fn led(kind: u8, part: Part) -> Piece
    ensures { result ≡ led kind part }
{
    Piece {
        lead: Lead::One(kind),
        range: part.content(),
    }
}

// Its content under another kind and tag.
fn retagged(kind: u8, tag: u8, part: Part) -> Piece
    ensures { result ≡ retagged kind tag part }
{
    Piece {
        lead: Lead::Two(kind, tag),
        range: part.content(),
    }
}

// The bet BY of a goal.
fn by_goal(part: Part) -> Piece
    ensures { result ≡ by_goal part }
{
    Piece {
        lead: Lead::One(BY),
        range: part.whole(),
    }
}

// The bet OR of a tag.
fn or_tag(tag: u8) -> Piece
    ensures { result ≡ or_tag tag }
{
    Piece {
        lead: Lead::Two(OR, tag),
        range: NO_BYTES,
    }
}

// A stack as it is.
fn unchanged(stack: StackPlaces) -> Stack
    ensures { result ≡ unchanged stack }
{
    Stack {
        count: stack.count,
        top: NOTHING,
        rest: stack.items(),
    }
}

// A stack without its top.
fn dropped(stack: StackPlaces) -> Stack
    ensures { result ≡ dropped stack }
{
    Stack {
        count: stack.fewer,
        top: NOTHING,
        rest: stack.below_top(),
    }
}

// A stack with a piece put on it.
fn pushed(stack: StackPlaces, top: Piece) -> Stack
    ensures { result ≡ pushed stack top }
{
    Stack {
        count: stack.more,
        top,
        rest: stack.items(),
    }
}

// A stack with a piece in place of its top.
fn replaced(stack: StackPlaces, top: Piece) -> Stack
    ensures { result ≡ replaced stack top }
{
    Stack {
        count: stack.count,
        top,
        rest: stack.below_top(),
    }
}

// The goal under another port, with the stacks as they are.
pub fn kept(v: View, port: u8) -> Plan
    ensures { result ≡ kept v port }
{
    Plan {
        port,
        goal: whole(v.goal),
        ancestors: unchanged(v.ancestors),
        bets: unchanged(v.bets),
    }
}

// The same without the bet on top.
pub fn bet_dropped(v: View, port: u8) -> Plan
    ensures { result ≡ bet_dropped v port }
{
    Plan {
        port,
        goal: whole(v.goal),
        ancestors: unchanged(v.ancestors),
        bets: dropped(v.bets),
    }
}

// From a conjunction or a disjunction to a half under it.
pub fn entered(v: View, port: u8, kind: u8, tag: u8) -> Plan
    ensures { result ≡ entered v port kind tag }
{
    Plan {
        port,
        goal: half_piece(v.goal, tag),
        ancestors: pushed(v.ancestors, retagged(kind, tag, v.goal)),
        bets: unchanged(v.bets),
    }
}

// From a disjunction to the half that the bet on top names, without that bet.
pub fn chosen(v: View, port: u8) -> Plan
    ensures { result ≡ chosen v port }
{
    Plan {
        port,
        goal: half_piece(v.goal, v.bet.tag),
        ancestors: pushed(v.ancestors, retagged(IN_DISJ, v.bet.tag, v.goal)),
        bets: dropped(v.bets),
    }
}

// From one half to the other.
pub fn reached(v: View, port: u8, kind: u8, tag: u8) -> Plan
    ensures { result ≡ reached v port kind tag }
{
    Plan {
        port,
        goal: half_piece(v.ancestor, tag),
        ancestors: replaced(v.ancestors, retagged(kind, tag, v.ancestor)),
        bets: unchanged(v.bets),
    }
}

// From a half to the conjunction or the disjunction.
pub fn left(v: View, port: u8, kind: u8) -> Plan
    ensures { result ≡ left v port kind }
{
    Plan {
        port,
        goal: led(kind, v.ancestor),
        ancestors: dropped(v.ancestors),
        bets: unchanged(v.bets),
    }
}

// From a half to the disjunction, with OR of the half put on the bets.
pub fn left_with_or(v: View, port: u8) -> Plan
    ensures { result ≡ left_with_or v port }
{
    Plan {
        port,
        goal: led(DISJ, v.ancestor),
        ancestors: dropped(v.ancestors),
        bets: pushed(v.bets, or_tag(v.ancestor.tag)),
    }
}

// From a body to its atom.
pub fn atom_left(v: View, port: u8) -> Plan
    ensures { result ≡ atom_left v port }
{
    Plan {
        port,
        goal: whole(v.ancestor),
        ancestors: dropped(v.ancestors),
        bets: unchanged(v.bets),
    }
}

// From a body to its atom, with BY of the body put on the bets.
pub fn atom_left_by(v: View, port: u8) -> Plan
    ensures { result ≡ atom_left_by v port }
{
    Plan {
        port,
        goal: whole(v.ancestor),
        ancestors: dropped(v.ancestors),
        bets: pushed(v.bets, by_goal(v.goal)),
    }
}

// From an atom to the body that the bet on top names, without that bet.
pub fn body_entered(v: View, port: u8) -> Plan
    ensures { result ≡ body_entered v port }
{
    Plan {
        port,
        goal: content_of(v.bet),
        ancestors: pushed(v.ancestors, whole(v.goal)),
        bets: dropped(v.bets),
    }
}
