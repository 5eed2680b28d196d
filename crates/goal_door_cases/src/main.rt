// Puts events from standard input to the service of the door, and prints a line for each: its ordinal from 1, the number, the steps back made, the
// checksum of the whole output, and, where one is written, the record in hexadecimal digits; of more than 200 bytes their number, the first 16 and the
// checksum.
// A case is four fields; a field is a four-byte length, high byte first, and that many bytes, at most 40,000. They are a program, an event, the limit
// and the output's length; these two numbers have four bytes, high byte first.
#![tactic(auto)]

use case_io::cases::each_case;
use case_io::digest::checksum;
use case_io::input::{at_most, read_field, read_number_field};
use case_io::line::{print_end, print_number, print_record, record_length};
use goal_door::service::{DoorAnswer, goal_door};
use records::questions::{Refusal, outcome_number};

// Every byte of an output that is lent, so that the checksum tells whether those behind the record are as they were.
const LENT: u8 = 0xA5;

// A record of at most so many bytes is printed whole.
const WHOLE: usize = 200;

fn print_checksum(out: &[u8]) {
    io::write_all(1, b" ");
    io::print_hex(1, u64::from(checksum(out)), 8);
}

// The record that the output starts with; none is written where the gate refuses.
fn print_reached(outcome: Result<(), Refusal>, out: &[u8]) {
    if !matches!(
        outcome,
        Err(Refusal::Program(_) | Refusal::Event(_) | Refusal::Output)
    ) {
        let n = record_length(out);
        print_record(&out[..n], WHOLE);
    }
}

fn print_door(ordinal: u64, answer: DoorAnswer, out: &[u8]) {
    io::print_decimal(1, ordinal);
    print_number(u64::from(outcome_number(&answer.outcome)));
    print_number(u64::from(answer.taken));
    print_checksum(out);
    print_reached(answer.outcome, out);
    print_end();
}

fn print_case(ordinal: u64, program: &[u8], event: &[u8], limit: u32, out: &mut [u8]) {
    let answer = goal_door(program, event, limit, out);
    print_door(ordinal, answer, out);
}

// With an output of so many bytes, at most 40,000.
fn case_with(ordinal: u64, program: &[u8], event: &[u8], limit: u32, room: u32) {
    let mut out = [LENT; 40000];
    let n = at_most(room as usize, &out);
    print_case(ordinal, program, event, limit, &mut out[..n]);
}

// The rest of a case behind its program. None, with nothing printed, where the input does not hold it.
fn event_case(ordinal: u64, program: &[u8]) -> Option<()> {
    let mut buf = [0u8; 40000];
    let n = read_field(&mut buf)?;
    let limit = read_number_field()?;
    let room = read_number_field()?;
    case_with(ordinal, program, &buf[..n], limit, room);
    Some(())
}

// Reads a case and prints its line. None where the input ends.
fn next_case(ordinal: u64) -> Option<()> {
    let mut buf = [0u8; 40000];
    let n = read_field(&mut buf)?;
    event_case(ordinal, &buf[..n])
}

fn main() {
    each_case(next_case);
}
