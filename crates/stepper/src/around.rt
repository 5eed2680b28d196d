// An event's record around what a rule adds to it, a unifier on the bets or a body under its atom: where in the output that is written, and what
// is then written before it and behind it. Both are copied from the event.
ghost use Rattle.std.specs.Prelude.{[], ◌∷◌, ◌++◌, ◌+◌, ◌≤◌, length};
ghost use Rattle.records.specs.Format.Encode.{word};
ghost use Rattle.records.specs.Writing.Patched.{Put};
ghost use Rattle.stepper.specs.Step.Completed.{Gap, InOrder, event_head, unifier_front, unifier_back, unifier_ends, body_front, body_back, body_ends, Completed};

use crate::emit::Reached;
use crate::layouts::NO_BYTES;
use crate::view::View;
use records::kinds::{RECORD_LIMIT, UNIFIER};
use records::places::PartEnds;
use records::put::{Range, put_byte, put_range, put_record_head, put_word};

// The part of an output for what starts at a place of a record that has so many other bytes: the rest of the record, and nothing where they are too many.
pub fn gap(at: usize, others: usize) -> Range
    requires { at ≤ others }
    ensures { Gap at others result }
{
    if RECORD_LIMIT < others {
        return NO_BYTES;
    }
    Range {
        from: at,
        to: at + (RECORD_LIMIT - others),
    }
}

// The head of a record of n bytes, and a port.
fn put_event_head(out: &mut [u8], n: usize, port: u8) -> usize
    requires { (2 ≤ n) × (4 ≤ length out.old) }
    ensures { Put out.old 0 (event_head n port) out.new result }
{
    let port_at = put_record_head(out, n);
    put_byte(out, port_at, port)
}

// A stack's count, and the kind of the unifier on top of it.
fn put_unifier_top(out: &mut [u8], at: usize, count: usize) -> usize
    requires { at + 3 ≤ length out.old }
    ensures { Put out.old at (word count ++ (0x20 ∷ [])) out.new result }
{
    let kind_at = put_word(out, at, count);
    put_byte(out, kind_at, UNIFIER)
}

// The event with a unifier put on the bets, whose count and pairs, n bytes, stand in their place.
pub fn with_unifier(event: &[u8], v: View, port: u8, n: usize, out: &mut [u8]) -> Reached
    requires in_order { InOrder event.now v }
    requires n_len_bound { length event.now + 1 + n ≤ 32768 }
    requires in_bounds { 32768 ≤ length out.old }
    ensures { Completed out.old (unifier_front event.now v port n) n (unifier_back event.now v) (unifier_ends v) result out.new }
{
    let ahead = Range {
        from: v.goal.from,
        to: v.ancestors.to,
    };
    let goal_at = put_event_head(out, event.len() + 1 + n, port);
    let count_at = put_range(out, goal_at, event, ahead);
    let unifier_at = put_unifier_top(out, count_at, v.bets.more);
    let length = put_range(out, unifier_at + n, event, v.bets.items());
    Reached {
        length,
        ends: PartEnds {
            goal: v.goal.to,
            ancestors: v.ancestors.to,
        },
    }
}

// The event's goal, an atom, put on the ancestors, with its body, n bytes that stand in their place, as the goal.
pub fn with_body(event: &[u8], v: View, port: u8, n: usize, out: &mut [u8]) -> Reached
    requires in_order { InOrder event.now v }
    requires n_len_bound { length event.now + n ≤ 32768 }
    requires in_bounds { 32768 ≤ length out.old }
    ensures { Completed out.old (body_front event.now port n) n (body_back event.now v) (body_ends v n) result out.new }
{
    let behind = Range {
        from: v.ancestors.from,
        to: v.bets.to,
    };
    let body_at = put_event_head(out, event.len() + n, port);
    let atom_at = put_word(out, body_at + n, v.ancestors.more);
    let behind_at = put_range(out, atom_at, event, v.goal.whole());
    let length = put_range(out, behind_at, event, behind);
    Reached {
        length,
        ends: PartEnds {
            goal: v.goal.from + n,
            ancestors: v.ancestors.to + n,
        },
    }
}
