// Puts cases from standard input to the crate terms, and prints a line for each: its ordinal from 1, its kind, the answer.
// A case is a kind byte and fields; a field is a four-byte length, high byte first, and that many bytes.
// v: an event, and a variable's number with the length of the output, two bytes each. The number of the value service and, where it is 0, S(v).
// u: an event, whose goal is an equality. 11 to 14, other, 8, none, long, or 0 and the unifier's count and pairs.
// b: a program and an event, whose goal is an atom. 1 to 4, 11 to 14, other, 9, none, long, or 0 and the body.
// g: an event. 11 to 14, or 0, the part that its greatest variable is in, and that variable.
#![tactic(auto)]

mod body;
mod print;
mod unify;

use crate::body::body_case;
use crate::print::{print_case, print_part, print_value};
use crate::unify::unify_case;
use case_io::cases::each_case;
use case_io::input::{at_most, read_field, read_kind, read_number_field};
use case_io::line::{print_end, print_start};
use terms::part::greatest_part;
use terms::value::value;

fn value_line(ordinal: u64, event: &[u8], v: u16, out: &mut [u8]) {
    let emit = value(event, v, out);
    print_start(ordinal, b'v');
    print_value(emit, out);
    print_end();
}

// With an output of so many bytes.
fn value_with(ordinal: u64, event: &[u8], v: u16, room: u32) {
    let mut out = io::large_buffer();
    let n = at_most(room as usize, &out);
    value_line(ordinal, event, v, &mut out[..n]);
}

// A case of an event and two numbers. Each function of a case gives None, with nothing printed, where the input does not hold the rest.
fn next_value(ordinal: u64, event: &[u8]) -> Option<()> {
    let both = read_number_field()?;
    value_with(ordinal, event, (both / 65536) as u16, both % 65536);
    Some(())
}

// A case of an event.
fn next_unifier(ordinal: u64, event: &[u8]) -> Option<()> {
    let mut out = io::large_buffer();
    let answer = unify_case(event, &mut out);
    print_start(ordinal, b'u');
    print_case(answer, &out);
    print_end();
    Some(())
}

// A case of an event.
fn next_greatest(ordinal: u64, event: &[u8]) -> Option<()> {
    let answer = greatest_part(event);
    print_start(ordinal, b'g');
    print_part(answer);
    print_end();
    Some(())
}

fn body_line(ordinal: u64, program: &[u8], event: &[u8]) {
    let mut out = [0u8; 32768];
    let answer = body_case(program, event, &mut out);
    print_start(ordinal, b'b');
    print_case(answer, &out);
    print_end();
}

// A case of a program and an event.
fn next_body(ordinal: u64, program: &[u8]) -> Option<()> {
    let mut buf = io::large_buffer();
    let n = read_field(&mut buf)?;
    body_line(ordinal, program, &buf[..n]);
    Some(())
}

fn first_field(ordinal: u64, kind: u8) -> Option<()> {
    let mut buf = io::large_buffer();
    let n = read_field(&mut buf)?;
    match kind {
        b'v' => next_value(ordinal, &buf[..n]),
        b'u' => next_unifier(ordinal, &buf[..n]),
        b'b' => next_body(ordinal, &buf[..n]),
        b'g' => next_greatest(ordinal, &buf[..n]),
        _ => None,
    }
}

// Reads a case and prints its line. None where the input ends.
fn next_case(ordinal: u64) -> Option<()> {
    first_field(ordinal, read_kind()?)
}

fn main() {
    each_case(next_case);
}
