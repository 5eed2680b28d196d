// Puts questions 1 to 4 to cases from standard input, and prints a line for each: its ordinal from 1, its kind, the number.
// A case is a kind byte (q query, e event, p program, c or any other clauses), a four-byte length, high byte first, and that many bytes.
#![tactic(auto)]

ghost use Rattle.std.specs.Prelude.{◌≡◌};
ghost use Rattle.records.specs.Gate.Reply.{outcome_number};
ghost use Rattle.records_cases.specs.Case.{case_number};

use case_io::cases::each_case;
use case_io::input::{read_field, read_kind};
use case_io::line::{print_end, print_number, print_start};
use records::door::{clauses_door, event_door, program_door, query_door};
use records::questions::{Refusal, outcome_number};

// The longest record of a case.
const LONGEST: usize = 40000;

// What questions 1 to 4 say of the slice, as a record of that kind (SPECIFICATION 7.2).
fn outcome_of(kind: u8, s: &[u8]) -> Result<(), Refusal>
    ensures { outcome_number result ≡ case_number kind s.now }
{
    match kind {
        b'q' => query_door(s),
        b'e' => event_door(s),
        b'p' => program_door(s),
        _ => clauses_door(s),
    }
}

fn print_case(ordinal: u64, kind: u8, s: &[u8]) {
    let outcome = outcome_of(kind, s);
    print_start(ordinal, kind);
    print_number(u64::from(outcome_number(&outcome)));
    print_end();
}

// Reads a case and prints its line. None, with nothing printed, where the input ends or the case is longer than the buffer.
fn next_case(ordinal: u64) -> Option<()> {
    let mut buf = [0u8; LONGEST];
    let kind = read_kind()?;
    let n = read_field(&mut buf)?;
    print_case(ordinal, kind, &buf[..n]);
    Some(())
}

fn main() {
    each_case(next_case);
}
