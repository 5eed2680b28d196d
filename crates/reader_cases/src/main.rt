// Puts texts from standard input to the reader, and prints a line for each: its ordinal from 1, the number, the bytes of the name list, the checksums
// of all of the names' buffer and of all of the output, and, where the number is 0, the record and the name list in hexadecimal digits; of more than
// 200 bytes their number, the first 16 and the checksum. A list without names is not printed.
// A case is a byte (q rules and a query, any other byte rules alone), its texts (pieces.rt), and the lengths of the two buffers, four bytes each, high
// byte first.
#![tactic(auto)]

mod pieces; // pieces.rt: a text, made of its pieces

use case_io::cases::each_case;
use case_io::digest::checksum;
use case_io::input::{at_most, read_kind, read_number};
use case_io::line::{print_end, print_number, print_record, record_length};
use pieces::read_text;
use reader::query::read_query;
use reader::read::read;
use records::questions::{Refusal, outcome_number};

// Every byte of a buffer that is lent, so that the checksum tells whether those that nothing is written to are as they were.
const LENT: u8 = 0xA5;

// A record or a name list of at most so many bytes is printed whole.
const WHOLE: usize = 200;

// The longest text, and the longest buffers for names and for a record, of a case.
const LONGEST: usize = 140000;

const MOST_NAMES: usize = 140000;

const MOST_ROOM: usize = 40000;

// How many bytes of each buffer a case lends.
#[derive(Clone, Copy)]
struct Rooms {
    names: usize,
    record: usize,
}

fn read_rooms() -> Option<Rooms> {
    let names = read_number()? as usize;
    let record = read_number()? as usize;
    Some(Rooms { names, record })
}

fn print_checksum(buffer: &[u8]) {
    io::write_all(1, b" ");
    io::print_hex(1, u64::from(checksum(buffer)), 8);
}

// The record that the output starts with.
fn print_made(out: &[u8]) {
    let n = record_length(out);
    print_record(&out[..n], WHOLE);
}

fn print_names(named: usize, names: &[u8]) {
    let n = at_most(named, names);
    if 0 < n {
        print_record(&names[..n], WHOLE);
    }
}

fn print_line(ordinal: u64, told: Result<usize, Refusal>, names: &[u8], out: &[u8]) {
    io::print_decimal(1, ordinal);
    print_number(u64::from(outcome_number(&told)));
    print_number(told.unwrap_or(0) as u64);
    print_checksum(names);
    print_checksum(out);
    if let Ok(named) = told {
        print_made(out);
        print_names(named, names);
    }
    print_end();
}

fn print_read(ordinal: u64, text: &[u8], names: &mut [u8], out: &mut [u8]) {
    let told = read(text, names, out);
    print_line(ordinal, told, names, out);
}

fn print_query(ordinal: u64, rules: &[u8], query: &[u8], names: &mut [u8], out: &mut [u8]) {
    let told = read_query(rules, query, names, out);
    print_line(ordinal, told, names, out);
}

// The rest of a case behind its rules. None, with nothing printed, where the input does not hold it.
fn rules_case(ordinal: u64, text: &[u8]) -> Option<()> {
    let mut names: [u8; MOST_NAMES] = [LENT; MOST_NAMES];
    let mut out: [u8; MOST_ROOM] = [LENT; MOST_ROOM];
    let rooms = read_rooms()?;
    let n = at_most(rooms.names, &names);
    let m = at_most(rooms.record, &out);
    print_read(ordinal, text, &mut names[..n], &mut out[..m]);
    Some(())
}

// The same with a query.
fn query_case(ordinal: u64, rules: &[u8]) -> Option<()> {
    let mut query: [u8; LONGEST] = [0; LONGEST];
    let mut names: [u8; MOST_NAMES] = [LENT; MOST_NAMES];
    let mut out: [u8; MOST_ROOM] = [LENT; MOST_ROOM];
    let size = read_text(&mut query)?;
    let rooms = read_rooms()?;
    let n = at_most(rooms.names, &names);
    let m = at_most(rooms.record, &out);
    print_query(
        ordinal,
        rules,
        &query[..size],
        &mut names[..n],
        &mut out[..m],
    );
    Some(())
}

// Reads a case and prints its line. None where the input ends.
fn next_case(ordinal: u64) -> Option<()> {
    let mut rules: [u8; LONGEST] = [0; LONGEST];
    let kind = read_kind()?;
    let n = read_text(&mut rules)?;
    if kind == b'q' {
        query_case(ordinal, &rules[..n])
    } else {
        rules_case(ordinal, &rules[..n])
    }
}

fn main() {
    each_case(next_case);
}
