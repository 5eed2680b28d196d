// A text to standard output, page after page, each by one call.
ghost use Rattle.walk_text.specs.Text.{text};
ghost use Rattle.walk.specs.Writing.{Handed, Output};

use walk_text::text::{PAGE, Rest, next_page};

// Whether all bytes were written.
fn write_bytes(bytes: &[u8]) -> bool
    ensures { Handed bytes.now result }
{
    io::write_all(1, bytes)
}

// Prints the text of two records, and answers whether it was written whole. A page that can't be written is the last.
pub fn print_text(program: &[u8], query: &[u8]) -> bool
    ensures { Output (text program.now query.now) result }
{
    let mut page = [0; PAGE];
    let mut rest = Rest::Start;
    while !rest.is_done() {
        let next = next_page(program, query, rest, &mut page);
        if !write_bytes(&page[..next.used]) {
            return false;
        }
        rest = next.rest;
    }
    true
}
