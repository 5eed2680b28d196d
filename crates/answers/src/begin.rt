// The first event of 'Q, fail'.
ghost use Rattle.std.specs.Prelude.{◌≡◌, ◌+◌, ◌≤◌, length};
ghost use Rattle.records.specs.Format.Encode.{event_record};
ghost use Rattle.records.specs.Format.Syntax.{Goal};
ghost use Rattle.records.specs.Gate.Gate.{Accepted, tree, read_query};
ghost use Rattle.records.specs.Writing.Patched.{Put};
ghost use Rattle.stepper.specs.Rules.Rules.{first_event};
ghost use Rattle.answers.specs.Form.Answers.{all_of};
ghost use Rattle.answers.specs.Writing.Begun.{opening_bytes, closing_bytes};

use records::kinds::{CALL, CONJ, FAILURE};
use records::put::{Range, put_byte, put_range, put_record_head, put_word};

// The event's record has so many bytes more than the query's: a port, a conjunction, a goal, and two counts.
pub const BEGIN_MORE: usize = 7;

// The place of a query's goal in its record.
pub const QUERY_GOAL: usize = 3;

// A call of a conjunction.
fn put_opening(out: &mut [u8], at: usize) -> usize
    requires { at + 2 ≤ length out.old }
    ensures { Put out.old at opening_bytes out.new result }
{
    let goal_at = put_byte(out, at, CALL);
    put_byte(out, goal_at, CONJ)
}

// fail, and two empty stacks.
fn put_closing(out: &mut [u8], at: usize) -> usize
    requires { at + 5 ≤ length out.old }
    ensures { Put out.old at closing_bytes out.new result }
{
    let ancestors_at = put_byte(out, at, FAILURE);
    let bets_at = put_word(out, ancestors_at, 0);
    put_word(out, bets_at, 0)
}

// The record of the first event of 'Q, fail', where it fits.
pub fn put_begin(query: &[u8], out: &mut [u8]) -> usize
    requires accepted { Accepted (read_query query.now) }
    requires query_in_bounds { length query.now + 7 ≤ length out.old }
    ensures { (q : Goal) → read_query query.now ≡ tree q → Put out.old 0 (event_record (first_event (all_of q))) out.new result }
{
    let n = query.len();
    let port_at = put_record_head(out, n + BEGIN_MORE);
    let goal_at = put_opening(out, port_at);
    let end = put_range(
        out,
        goal_at,
        query,
        Range {
            from: QUERY_GOAL,
            to: n,
        },
    );
    put_closing(out, end)
}
