// Cases of kind q: query to first event.
use crate::answer::print_answer;
use case_io::input::{at_most, read_number_field};
use case_io::line::{print_end, print_start};
use stepper::first::first_event;

fn print_first(ordinal: u64, query: &[u8], out: &mut [u8]) {
    let first = first_event(query, out);
    print_start(ordinal, b'q');
    print_answer(&first, out);
    print_end();
}

// With an output of so many bytes, at most 40,000.
fn first_with(ordinal: u64, query: &[u8], room: u32) {
    let mut out = [0u8; 40000];
    let n = at_most(room as usize, &out);
    print_first(ordinal, query, &mut out[..n]);
}

pub fn first_case(ordinal: u64, query: &[u8]) -> Option<()> {
    first_with(ordinal, query, read_number_field()?);
    Some(())
}
