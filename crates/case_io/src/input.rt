// What a case consists of, from standard input. Each part is None where the input ends before it does.
ghost use Rattle.std.specs.Prelude.{IfSome};
ghost use Rattle.io.specs.Counts.{IsPrefixLen};

// A number of a buffer's bytes: n, or all where there are fewer.
pub fn at_most(n: usize, buf: &[u8]) -> usize
    ensures { IsPrefixLen result buf.now }
{
    n.min(buf.len())
}

// Bytes that fill a buffer whole.
fn read_whole(buf: &mut [u8]) -> Option<()> {
    if io::read_full(0, buf) < buf.len() {
        return None;
    }
    Some(())
}

// A case's kind byte.
pub fn read_kind() -> Option<u8> {
    let mut byte = [0u8; 1];
    read_whole(&mut byte)?;
    Some(byte[0])
}

// A length of four bytes, high byte first, and that many bytes, put at the start of a buffer: how many there are. None, too, where the buffer is
// shorter.
pub fn read_field(buf: &mut [u8]) -> Option<usize>
    ensures { IfSome result (λ n. IsPrefixLen n buf.new) }
{
    let n = read_number()? as usize;
    if buf.len() < n {
        return None;
    }
    read_whole(&mut buf[..n])?;
    Some(n)
}

// A number of four bytes, high byte first. Where it is a size it is widened with `as`: there is no `From` for a usize.
pub fn read_number() -> Option<u32> {
    let mut bytes = [0u8; 4];
    read_whole(&mut bytes)?;
    Some(u32::from_be_bytes(bytes))
}

// A field of four bytes, as a number.
pub fn read_number_field() -> Option<u32> {
    let mut bytes = [0u8; 4];
    if read_field(&mut bytes)? < bytes.len() {
        return None;
    }
    Some(u32::from_be_bytes(bytes))
}
