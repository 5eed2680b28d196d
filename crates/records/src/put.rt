// Writers of bytes, two-byte numbers and parts: each writes at a place of an output and gives the place after what it wrote.
ghost use Rattle.std.specs.Prelude.{[], ◌∷◌, ◌+◌, ◌-◌, ◌<◌, ◌≤◌, length};
ghost use Rattle.records.specs.Format.Encode.{word, record_head};
ghost use Rattle.records.specs.Writing.Patched.{Put};
ghost use Rattle.records.specs.Ends.Range.{cut, Inside};

use crate::kinds::VERSION;

// The places `from` to `to - 1` of a slice.
#[derive(Clone, Copy)]
pub struct Range {
    pub from: usize,
    pub to: usize,
}

// One byte.
pub fn put_byte(out: &mut [u8], at: usize, b: u8) -> usize
    requires { at < length out.old }
    ensures { Put out.old at (b ∷ []) out.new result }
{
    out[at] = b;
    at + 1
}

// A two-byte number, high byte first; of a greater one its low half, so no `u16::try_from`.
pub fn put_word(out: &mut [u8], at: usize, n: usize) -> usize
    requires { at + 2 ≤ length out.old }
    ensures { Put out.old at (word n) out.new result }
{
    let next = put_byte(out, at, (n / 256 % 256) as u8);
    put_byte(out, next, (n % 256) as u8)
}

// The length field and the version of a record of n bytes, from the start of the output on.
pub fn put_record_head(out: &mut [u8], n: usize) -> usize
    requires { (2 ≤ n) × (3 ≤ length out.old) }
    ensures { Put out.old 0 (record_head n) out.new result }
{
    let version_at = put_word(out, 0, n - 2);
    put_byte(out, version_at, VERSION)
}

// All bytes of a slice. No `copy_from_slice`: it needs memmove, and the archive needs memcpy and memset alone.
pub fn put_part(out: &mut [u8], at: usize, src: &[u8]) -> usize
    requires { at + length src.now ≤ length out.old }
    ensures { Put out.old at src.now out.new result }
{
    for (j, b) in src.iter().enumerate() {
        out[at + j] = *b;
    }
    at + src.len()
}

// The bytes of a range of a slice.
pub fn put_range(out: &mut [u8], at: usize, src: &[u8], range: Range) -> usize
    requires inside { Inside range src.now }
    requires from_in_bounds { at + (range.to - range.from) ≤ length out.old }
    ensures { Put out.old at (cut src.now range) out.new result }
{
    put_part(out, at, &src[range.from..range.to])
}
