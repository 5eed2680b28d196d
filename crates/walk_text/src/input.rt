// The records of an input: how many bytes belong to one, by its length field.
ghost use Rattle.std.specs.Prelude.{◌≡◌, length};
ghost use Rattle.io.specs.Counts.{IsPrefixLen};
ghost use Rattle.walk_text.specs.Input.{bytes_named, taken};

use records::heads::word_at;
use records::kinds::RECORD_LIMIT;

// No record's length field names more bytes.
const LONGEST: usize = RECORD_LIMIT - 2;

// How many bytes follow a length field: 0, as `bytes_named` says, where its two bytes are not there, or name more than a record has.
pub fn named(field: &[u8]) -> usize
    ensures { result ≡ bytes_named field.now }
{
    match word_at(field, 0) {
        Some(n) if n <= LONGEST => n,
        _ => 0,
    }
}

// How many bytes of an input are taken for the record at its front.
pub fn taken_length(input: &[u8]) -> usize
    ensures value { result ≡ length (taken input.now) }
    ensures within { IsPrefixLen result input.now }
{
    input.len().min(2 + named(input))
}
