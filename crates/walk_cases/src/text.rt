// The text of an input, made page after page as the walk program makes it.
ghost use Rattle.std.specs.Prelude.{◌≡◌};
ghost use Rattle.io.specs.Counts.{IsPrefixLen};
ghost use Rattle.walk_text.specs.Input.{taken};
ghost use Rattle.walk_text.specs.Text.{text, printed};
ghost use Rattle.case_io.specs.Digest.{digest_of};

use case_io::digest::{Digest, add_bytes, no_bytes};
use walk_text::input::taken_length;
use walk_text::text::{PAGE, Rest, next_page};

// The digest of a text, and how many bytes its last page has.
#[derive(Clone, Copy)]
pub struct Digested {
    pub digest: Digest,
    pub used: usize,
}

// The text of two records; its last page stays in the buffer.
fn digest_text(program: &[u8], query: &[u8], page: &mut [u8; PAGE]) -> Digested
    ensures digest_value { result.digest ≡ digest_of (text program.now query.now) }
    ensures within { IsPrefixLen result.used page.new }
{
    let mut digest = no_bytes();
    let mut used = 0;
    let mut rest = Rest::Start;
    while !rest.is_done() {
        let next = next_page(program, query, rest, page);
        used = next.used;
        digest = add_bytes(digest, &page[..used]);
        rest = next.rest;
    }
    Digested { digest, used }
}

// The text of a program, and of the query at the front of the rest of the input.
fn digest_query(program: &[u8], rest: &[u8], page: &mut [u8; PAGE]) -> Digested
    ensures digest_value { result.digest ≡ digest_of (text program.now (taken rest.now)) }
    ensures within { IsPrefixLen result.used page.new }
{
    let n = taken_length(rest);
    digest_text(program, &rest[..n], page)
}

// The text of a standard input.
pub fn digest_input(input: &[u8], page: &mut [u8; PAGE]) -> Digested
    ensures digest_value { result.digest ≡ digest_of (printed input.now) }
    ensures within { IsPrefixLen result.used page.new }
{
    let (program, rest) = input.split_at(taken_length(input));
    digest_query(program, rest, page)
}
