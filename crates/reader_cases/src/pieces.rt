// A text of a case, from standard input: the number of its pieces, four bytes, high byte first, and the pieces. A piece is a length of four bytes, and
// a field (a length and that many bytes) whose bytes stand over and over up to that length.
ghost use Rattle.std.specs.Prelude.{◌≤◌, length, IfSome};
ghost use Rattle.io.specs.Counts.{IsPrefixLen};

use case_io::input::{read_field, read_number};

// The first n bytes of a buffer over and over, up to a length.
fn repeat(buf: &mut [u8], n: usize, size: usize)
    requires { size ≤ length buf.old }
    ensures { IsPrefixLen size buf.new }
{
    for i in n..size {
        buf[i] = buf[i - n];
    }
}

// A piece, put at the start of a buffer.
fn read_piece(buf: &mut [u8]) -> Option<usize>
    ensures { IfSome result (λ size. IsPrefixLen size buf.new) }
{
    let size = read_number()? as usize;
    let n = read_field(buf)?;
    if buf.len() < size {
        return None;
    }
    repeat(buf, n, size);
    Some(size)
}

// The text, put at the start of a buffer.
pub fn read_text(buf: &mut [u8]) -> Option<usize>
    ensures { IfSome result (λ size. IsPrefixLen size buf.new) }
{
    let mut size = 0;
    for _ in 0..read_number()? {
        size += read_piece(&mut buf[size..])?;
    }
    Some(size)
}
