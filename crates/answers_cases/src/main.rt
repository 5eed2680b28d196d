// Puts queries from standard input to the service of the answers, and prints a line for each: its ordinal from 1, the number, the bytes written, the
// steps made, how many bytes behind those written are as they were lent, and what is written in hexadecimal digits; of more than 200 bytes their
// number, the first 16 and the checksum.
// A case is four fields; a field is a four-byte length, high byte first, and that many bytes, at most 40,000. They are a program, a query, the steps
// and the output's length; these two numbers have four bytes, high byte first.
#![tactic(auto)]

mod rest;

use crate::rest::{LENT, as_lent};
use answers::service::{ListAnswer, answers};
use case_io::cases::each_case;
use case_io::input::{at_most, read_field, read_number_field};
use case_io::line::{print_end, print_number, print_record};
use records::questions::outcome_number;

// Answers of at most so many bytes are printed whole.
const WHOLE: usize = 200;

// What is written, where something is.
fn print_answers(written: &[u8]) {
    if !written.is_empty() {
        print_record(written, WHOLE);
    }
}

fn print_listing(ordinal: u64, listing: ListAnswer, out: &[u8]) {
    let n = at_most(listing.written, out);
    let left = as_lent(&out[n..]);
    io::print_decimal(1, ordinal);
    print_number(u64::from(outcome_number(&listing.outcome)));
    print_number(listing.written as u64);
    print_number(u64::from(listing.taken));
    print_number(left as u64);
    print_answers(&out[..n]);
    print_end();
}

fn print_case(ordinal: u64, program: &[u8], query: &[u8], steps: u32, out: &mut [u8]) {
    let listing = answers(program, query, steps, out);
    print_listing(ordinal, listing, out);
}

// With an output of so many bytes, at most 70,000.
fn case_with(ordinal: u64, program: &[u8], query: &[u8], steps: u32, room: u32) {
    let mut out = [LENT; 70000];
    let n = at_most(room as usize, &out);
    print_case(ordinal, program, query, steps, &mut out[..n]);
}

// The rest of a case behind its program. None, with nothing printed, where the input does not hold it.
fn query_case(ordinal: u64, program: &[u8]) -> Option<()> {
    let mut buf = [0u8; 40000];
    let n = read_field(&mut buf)?;
    let steps = read_number_field()?;
    let room = read_number_field()?;
    case_with(ordinal, program, &buf[..n], steps, room);
    Some(())
}

// Reads a case and prints its line. None where the input ends.
fn next_case(ordinal: u64) -> Option<()> {
    let mut buf = [0u8; 40000];
    let n = read_field(&mut buf)?;
    query_case(ordinal, &buf[..n])
}

fn main() {
    each_case(next_case);
}
