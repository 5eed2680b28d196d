// The value service: S(v), what the bet stack of an event makes of a variable.
ghost use Rattle.std.specs.Prelude.{◌≡◌, ◌≤◌, length};
ghost use Rattle.records.specs.Gate.Gate.{read_event};
ghost use Rattle.records.specs.Format.Syntax.Term.{var};
ghost use Rattle.terms.specs.Values.Answered.{Answered, Buffers};
ghost use Rattle.terms.specs.Standing.BetRow.{RuledBets};
ghost use Rattle.terms.specs.Theory.Outcome.{value};
ghost use Rattle.records.specs.Format.Encode.{term_bytes};
ghost use Rattle.records.specs.Gate.Receipt.{receipt_of};
ghost use Rattle.records.specs.Gate.Reply.{Receipted};
ghost use Rattle.terms.specs.Values.ValueService.{value_into, value_answer};

use crate::apply::apply_bets;
use crate::pairs::{ListedPair, UNLISTED};
use crate::tables::MOST_PAIRS;
use records::door::event_door;
use records::kinds::{RECORD_LIMIT, VALUE_LIMIT, VARIABLE};
use records::places::event_places;
use records::put::{Range, put_range};
use records::questions::Refusal;

// S(v) under the n bets at `at` of the event. The value is left in the output; the table is for the pairs of the bets.
pub fn variable_value(
    event: &[u8],
    at: usize,
    n: usize,
    v: u16,
    entries: &mut [ListedPair],
    out: &mut [u8],
) -> Option<usize>
    requires ruled_bets { RuledBets event.now at n }
    requires buffers { Buffers event.now entries.old out.old }
    ensures { (p : RuledBets event.now at n) → Answered p.row.items (var v) out.new result }
{
    let [high, low] = v.to_be_bytes();
    let term: [u8; 3] = [VARIABLE, high, low];
    apply_bets(event, at, n, &term, 0, entries, out)
}

// Questions 5 and 8, and then S(v) as bare term bytes at the start of the output; its length.
pub fn put_value(
    event: &[u8],
    at: usize,
    n: usize,
    v: u16,
    out: &mut [u8],
) -> Result<usize, Refusal>
    requires ruled_bets { RuledBets event.now at n }
    requires event_len_bound { length event.now ≤ 32768 }
    ensures { (p : RuledBets event.now at n) → Receipted term_bytes (value_into (length out.old) (value p.row.items v)) out.old (receipt_of result) out.new }
{
    if out.len() < RECORD_LIMIT {
        return Err(Refusal::Output);
    }
    let mut entries: [ListedPair; MOST_PAIRS] = [UNLISTED; MOST_PAIRS];
    let mut value: [u8; VALUE_LIMIT] = [0; VALUE_LIMIT];
    let Some(m) = variable_value(event, at, n, v, &mut entries, &mut value) else {
        return Err(Refusal::Values);
    };
    Ok(put_range(out, 0, &value, Range { from: 0, to: m }))
}

// The value service: S(v) under the bet stack of an event, for every event record, v and output.
pub fn value(event: &[u8], v: u16, out: &mut [u8]) -> Result<usize, Refusal>
    ensures { Receipted term_bytes (value_answer (read_event event.now) (length out.old) v) out.old (receipt_of result) out.new }
{
    event_door(event)?;
    let bets = event_places(event).bets;
    put_value(event, bets.from, bets.count, v, out)
}
