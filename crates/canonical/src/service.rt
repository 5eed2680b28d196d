// Clauses to canonical program: from a clause record to a program record.
ghost use Rattle.std.specs.Prelude.{◌≡◌, ◌≤◌, length};
ghost use Rattle.records.specs.Gate.Gate.{Accepted, read_clauses};
ghost use Rattle.records.specs.Gate.Reply.{outcome_number, Replied};
ghost use Rattle.canonical.specs.Writing.Service.{program_reply, canonical_record};
ghost use Rattle.canonical.specs.Sorting.Remaining.{record_clauses, program_of};

use crate::order::{list_clauses, sort};
use crate::program::put_program;
use records::door::clauses_door;
use records::heads::word_at;
use records::kinds::RECORD_LIMIT;
use records::questions::Refusal;

// The program of an accepted clause record, by way of its clauses' entries: as they stand in the table, and then sorted.
fn put_sorted(
    s: &[u8],
    table: &mut [usize],
    sorted: &mut [usize],
    out: &mut [u8],
) -> Result<(), Refusal>
    requires accepted { Accepted (read_clauses s.now) }
    requires table_len { length table.old ≡ length (record_clauses s.now) }
    requires sorted_len { length sorted.old ≡ length table.old }
    requires in_bounds { 32768 ≤ length out.old }
    ensures { Replied (program_reply out.old (program_of s.now)) (outcome_number result) out.new }
{
    list_clauses(s, table);
    sort(table, sorted);
    put_program(s, sorted, out)
}

// A clause has five bytes or more, so no record has more clauses.
const MOST_CLAUSES: usize = 6552;

// The same with tables that any record's entries fit.
fn put_canonical(
    s: &[u8],
    table: &mut [usize],
    sorted: &mut [usize],
    out: &mut [u8],
) -> Result<(), Refusal>
    requires accepted { Accepted (read_clauses s.now) }
    requires in_bounds { 6552 ≤ length table.old }
    requires in_bounds_2 { 6552 ≤ length sorted.old }
    requires in_bounds_3 { 32768 ≤ length out.old }
    ensures { Replied (program_reply out.old (program_of s.now)) (outcome_number result) out.new }
{
    let Some(n) = word_at(s, 3) else {
        return Ok(());
    };
    put_sorted(s, &mut table[..n], &mut sorted[..n], out)
}

// The service, for every slice and every output.
pub fn canonical(clauses: &[u8], out: &mut [u8]) -> Result<(), Refusal>
    ensures { Replied (canonical_record clauses.now out.old) (outcome_number result) out.new }
{
    clauses_door(clauses)?;
    if out.len() < RECORD_LIMIT {
        return Err(Refusal::Output);
    }
    let mut table = [0; MOST_CLAUSES];
    let mut sorted = [0; MOST_CLAUSES];
    put_canonical(clauses, &mut table, &mut sorted, out)
}
