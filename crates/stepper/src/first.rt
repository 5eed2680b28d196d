// Query to first event.
ghost use Rattle.std.specs.Prelude.{◌≡◌, length};
ghost use Rattle.records.specs.Format.Encode.{event_record};
ghost use Rattle.records.specs.Gate.Receipt.{receipt_of};
ghost use Rattle.records.specs.Gate.Reply.{Replied, answer_length, outcome_number};
ghost use Rattle.stepper.specs.Services.Services.{first_answer, first_record};
ghost use Rattle.stepper.specs.Services.Desk.{layers};
ghost use Rattle.stepper.specs.Services.FirstPlan.{no_items, first_plan};

use crate::layouts::{NO_BYTES, NOTHING};
use records::door::query_door;
use records::kinds::CALL;
use records::plan::{Lead, Piece, Plan, Stack, emit_plan};
use records::put::Range;
use records::questions::Refusal;

// A stack with nothing on it.
fn no_items() -> Stack
    ensures { result ≡ no_items }
{
    Stack {
        count: 0,
        top: NOTHING,
        rest: NO_BYTES,
    }
}

// Call of a query's goal, which ends at `end`, with two empty stacks.
fn first_plan(end: usize) -> Plan
    ensures { result ≡ first_plan end }
{
    Plan {
        port: CALL,
        goal: Piece {
            lead: Lead::Bare,
            range: Range { from: 3, to: end },
        },
        ancestors: no_items(),
        bets: no_items(),
    }
}

// The first event's record and its length: 11 to 14 of the query, then 5 and 10.
pub fn first_event(query: &[u8], out: &mut [u8]) -> Result<usize, Refusal>
    ensures replied { Replied (first_record layers query.now out.old) (outcome_number result) out.new }
    ensures length_is { (receipt_of result).length ≡ answer_length event_record (first_answer layers query.now (length out.old)) }
{
    query_door(query)?;
    emit_plan(out, first_plan(query.len()), query)
}
