// Puts inputs of the walk program to its library, and prints a line for each: its ordinal from 1, how many bytes and lines the text has, its
// checksum, and the text, with / for each line feed; of a text of more than 80 bytes the last line, after two dots.
// A case is a four-byte length, high byte first, and that many bytes, at most 80,000: a whole standard input.
#![tactic(auto)]

mod shown; // shown.rt: the line of a case
mod text; // text.rt: the text of an input, page after page

use case_io::cases::each_case;
use case_io::input::read_field;
use shown::print_line;
use text::{Digested, digest_input};
use walk_text::text::PAGE;

// The longest input that is stored.
const LONGEST: usize = 80000;

fn print_case(ordinal: u64, input: &[u8]) {
    let mut page = [0u8; PAGE];
    let Digested { digest, used } = digest_input(input, &mut page);
    print_line(ordinal, digest, &page[..used]);
}

// Reads a case and prints its line. None, with nothing printed, where the input ends or the case is longer than the buffer.
fn next_case(ordinal: u64) -> Option<()> {
    let mut input = [0u8; LONGEST];
    let n = read_field(&mut input)?;
    print_case(ordinal, &input[..n]);
    Some(())
}

fn main() {
    each_case(next_case);
}
