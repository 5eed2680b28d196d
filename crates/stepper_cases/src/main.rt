// Puts cases from standard input to the services of the stepper, and prints a line for each, or for each event and refusal of a walk.
// A case is a kind byte and fields; a field is a four-byte length, high byte first, and that many bytes, at most 40,000.
// q: a query, the output's length. f, b: a program, an event, the output's length. r, s: a program, an event, the steps, the output's length.
// w: a program, a query, the steps. l: a program, an event. c: an event, four counts. Numbers have four bytes, high byte first.
#![tactic(auto)]

mod answer;
mod count;
mod first;
mod lookup;
mod run;
mod step;
mod walk;

use crate::count::count_case;
use crate::first::first_case;
use crate::lookup::lookup_case;
use crate::run::run_case;
use crate::step::step_case;
use crate::walk::walk_case;
use case_io::cases::each_case;
use case_io::input::{read_field, read_kind};

// A case of a program and an event or a query. Each function of a case gives None, with nothing printed, where the input does not hold the rest.
fn program_case(ordinal: u64, kind: u8, program: &[u8], second: &[u8]) -> Option<()> {
    match kind {
        b'f' => step_case(ordinal, false, program, second),
        b'b' => step_case(ordinal, true, program, second),
        b'r' => run_case(ordinal, false, program, second),
        b's' => run_case(ordinal, true, program, second),
        b'w' => walk_case(ordinal, program, second),
        b'l' => lookup_case(ordinal, program, second),
        _ => None,
    }
}

fn second_field(ordinal: u64, kind: u8, first: &[u8]) -> Option<()> {
    let mut buf = [0u8; 40000];
    let n = read_field(&mut buf)?;
    program_case(ordinal, kind, first, &buf[..n])
}

fn first_field(ordinal: u64, kind: u8) -> Option<()> {
    let mut buf = [0u8; 40000];
    let n = read_field(&mut buf)?;
    match kind {
        b'q' => first_case(ordinal, &buf[..n]),
        b'c' => count_case(ordinal, &buf[..n]),
        _ => second_field(ordinal, kind, &buf[..n]),
    }
}

// Reads a case and prints its lines. None where the input ends.
fn next_case(ordinal: u64) -> Option<()> {
    first_field(ordinal, read_kind()?)
}

fn main() {
    each_case(next_case);
}
