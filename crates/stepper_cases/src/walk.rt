// Cases of kind w: the first event of a query, steps forward, and then steps back until one is refused.
ghost use Rattle.std.specs.Prelude.{◌≤◌};

use crate::answer::print_answer;
use crate::step::step;
use case_io::input::read_number_field;
use case_io::line::{print_end, print_start, print_word, record_length};
use records::kinds::RECORD_LIMIT;
use records::questions::Refusal;
use stepper::first::first_event;

// A line of a walk; the mark is = for the first event, > for a step forward, < for a step back.
fn print_walked<T>(ordinal: u64, mark: u8, outcome: &Result<T, Refusal>, out: &[u8]) {
    print_start(ordinal, b'w');
    print_word(&[mark]);
    print_answer(outcome, out);
    print_end();
}

// Steps in a direction until one is refused, at most so many, each with its line: how many were accepted. The buffer starts with the event that they
// start from, and then with the one that they lead to.
fn walk_on(
    ordinal: u64,
    back: bool,
    program: &[u8],
    event: &mut [u8; RECORD_LIMIT],
    most: u64,
) -> u64
    ensures { result ≤ most }
{
    for taken in 0..most {
        let mut next = [0; RECORD_LIMIT];
        let n = record_length(event);
        let answer = step(back, program, &event[..n], &mut next);
        print_walked(ordinal, if back { b'<' } else { b'>' }, &answer, &next);
        if answer.is_err() {
            return taken;
        }
        *event = next;
    }
    most
}

// After so many steps forward as many lead back to the first event, so the limit of the steps back takes nothing away.
fn walk(ordinal: u64, program: &[u8], query: &[u8], most: u32) {
    let mut event = [0; RECORD_LIMIT];
    let first = first_event(query, &mut event);
    print_walked(ordinal, b'=', &first, &event);
    if first.is_ok() {
        let reached = walk_on(ordinal, false, program, &mut event, u64::from(most));
        walk_on(ordinal, true, program, &mut event, reached + 1);
    }
}

pub fn walk_case(ordinal: u64, program: &[u8], query: &[u8]) -> Option<()> {
    walk(ordinal, program, query, read_number_field()?);
    Some(())
}
