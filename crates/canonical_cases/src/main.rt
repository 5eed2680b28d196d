// Makes the programs of clause records from standard input, and prints a line for each: its ordinal from 1, the number, and, where that is 0, the
// program's record in hexadecimal digits; of more than 64 bytes their number, the first 16 and the checksum.
// A case is a byte (w an output of 32,768 bytes, any other byte one of 32,767), a four-byte length, high byte first, and that many bytes.
#![tactic(auto)]

use canonical::service::canonical;
use case_io::cases::each_case;
use case_io::input::{read_field, read_kind};
use case_io::line::{print_end, print_number, print_record, record_length};

// A record of at most so many bytes is printed whole.
const SHOWN_WHOLE: usize = 64;

// The program's record, which the output starts with.
fn print_program(out: &[u8]) {
    let n = record_length(out);
    print_record(&out[..n], SHOWN_WHOLE);
}

fn print_case(ordinal: u64, clauses: &[u8], out: &mut [u8]) {
    let outcome = canonical(clauses, out);
    io::print_decimal(1, ordinal);
    match outcome {
        Ok(()) => {
            print_number(0);
            print_program(out);
        }
        Err(refusal) => print_number(u64::from(refusal.number())),
    }
    print_end();
}

// Reads a case and prints its line. False, with nothing printed, where the input ends or the case is longer than the buffer.
fn next_case(ordinal: u64) -> Option<()> {
    let mut buf = [0u8; 40000];
    let mut out = [0u8; 32768];
    let kind = read_kind()?;
    let n = read_field(&mut buf)?;
    let room = if kind == b'w' { 32768 } else { 32767 };
    print_case(ordinal, &buf[..n], &mut out[..room]);
    Some(())
}

fn main() {
    each_case(next_case);
}
