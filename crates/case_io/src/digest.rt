// What is told of a text: how many bytes and lines it has, and its checksum.
ghost use Rattle.std.specs.Prelude.{◌≡◌};
ghost use Rattle.case_io.specs.Digest.{line_ends, mixed, no_bytes, digest_more, digest_from, digest_of};

// Before the first byte.
const FIRST_CHECKSUM: u32 = 0x811c9dc5;

// What a checksum is multiplied by.
const PRIME: u32 = 0x01000193;

// Each number modulo 2^32.
#[derive(Clone, Copy)]
pub struct Digest {
    pub bytes: u32,
    pub lines: u32,
    pub checksum: u32,
}

// How many lines a byte ends.
fn line_ends(b: u8) -> u32
    ensures { result ≡ line_ends b }
{
    u32::from(b == b'\n')
}

// The checksum with one byte more.
fn mixed(sum: u32, b: u8) -> u32
    ensures { result ≡ mixed sum b }
{
    (sum ^ u32::from(b)).wrapping_mul(PRIME)
}

fn add_byte(d: Digest, b: u8) -> Digest
    ensures { result ≡ digest_more d b }
{
    Digest {
        bytes: d.bytes.wrapping_add(1),
        lines: d.lines.wrapping_add(line_ends(b)),
        checksum: mixed(d.checksum, b),
    }
}

// Before the first byte.
pub fn no_bytes() -> Digest
    ensures { result ≡ no_bytes }
{
    Digest {
        bytes: 0,
        lines: 0,
        checksum: FIRST_CHECKSUM,
    }
}

// All bytes of a slice more.
pub fn add_bytes(d: Digest, bytes: &[u8]) -> Digest
    ensures { result ≡ digest_from d bytes.now }
{
    bytes.iter().fold(d, |sum, b| add_byte(sum, *b))
}

// The checksum of a slice.
pub fn checksum(bytes: &[u8]) -> u32
    ensures { result ≡ (digest_of bytes.now).checksum }
{
    add_bytes(no_bytes(), bytes).checksum
}
