// The line that is printed for a case.
ghost use Rattle.std.specs.Prelude.{◌≤◌, length};

use case_io::digest::Digest;
use case_io::line::{print_end, print_number};

// A text of at most so many bytes is shown whole.
const WHOLE: u32 = 80;

// Where the last line of a text starts.
fn last_line(text: &[u8]) -> usize
    ensures { result ≤ length text.now }
{
    let Some((_, before)) = text.split_last() else {
        return 0;
    };
    match before.iter().rposition(|b| *b == b'\n') {
        Some(i) => i + 1,
        None => 0,
    }
}

// A byte of a text; / for a line feed.
fn shown(b: u8) -> u8 {
    if b == b'\n' { b'/' } else { b }
}

fn print_text(text: &[u8]) {
    for b in text {
        io::write_all(1, &[shown(*b)]);
    }
}

fn print_digest(digest: Digest) {
    print_number(u64::from(digest.bytes));
    print_number(u64::from(digest.lines));
    io::write_all(1, b" ");
    io::print_hex(1, u64::from(digest.checksum), 8);
    io::write_all(1, b" ");
}

fn print_last(page: &[u8]) {
    let from = last_line(page);
    io::write_all(1, b".. ");
    print_text(&page[from..]);
}

// The line of a text, by its digest and its last page: a short text stands on one.
pub fn print_line(ordinal: u64, digest: Digest, page: &[u8]) {
    io::print_decimal(1, ordinal);
    print_digest(digest);
    if digest.bytes <= WHOLE {
        print_text(page);
    } else {
        print_last(page);
    }
    print_end();
}
