// A line of standard output, part by part. Each part but the first stands after a blank. Numbers are printed by `io`, the library that this project's
// programs use, and not by a `Display`.
ghost use Rattle.std.specs.Prelude.{◌≡◌, ◌*◌, ◌<◌, ◌≤◌, length, take};
ghost use Rattle.io.specs.Counts.{IsPrefixLen};
ghost use Rattle.io.specs.Digits.{hex_digit_ascii};
ghost use Rattle.case_io.specs.Hex.{hex_digits};

use crate::digest::checksum;

// The case's ordinal and kind.
pub fn print_start(ordinal: u64, kind: u8) {
    io::print_decimal(1, ordinal);
    io::write_all(1, &[b' ', kind]);
}

// A number. A usize is widened with `as` by who prints it: there is no `From` for it.
pub fn print_number(n: u64) {
    io::write_all(1, b" ");
    io::print_decimal(1, n);
}

pub fn print_word(word: &[u8]) {
    io::write_all(1, b" ");
    io::write_all(1, word);
}

pub fn print_end() {
    io::write_all(1, b"\n");
}

// A hexadecimal digit, in lower case. By hand: std's `from_digit` makes an Option of a char, with two casts around it.
fn digit(n: u8) -> u8
    requires { n < 16 }
    ensures { result ≡ hex_digit_ascii n }
{
    if n < 10 { b'0' + n } else { b'a' + (n - 10) }
}

// Two hexadecimal digits for each byte, at the start of a buffer. Gives how many digits there are.
fn hex(bytes: &[u8], text: &mut [u8]) -> usize
    requires { 2 * length bytes.now ≤ length text.old }
    ensures prefix_len { IsPrefixLen result text.new }
    ensures text_after { take result text.new ≡ hex_digits bytes.now }
{
    for (i, b) in bytes.iter().enumerate() {
        text[2 * i] = digit(*b / 16);
        text[2 * i + 1] = digit(*b % 16);
    }
    2 * bytes.len()
}

// Bytes in hexadecimal, at most 256.
fn print_hex(bytes: &[u8])
    requires { length bytes.now ≤ 256 }
{
    let mut text = [0u8; 512];
    let n = hex(bytes, &mut text);
    io::write_all(1, &text[..n]);
}

// #, the length, :, the first 16 bytes, :, the checksum.
fn print_long(bytes: &[u8])
    requires { 16 ≤ length bytes.now }
{
    io::write_all(1, b"#");
    io::print_decimal(1, bytes.len() as u64);
    io::write_all(1, b":");
    print_hex(&bytes[..16]);
    io::write_all(1, b":");
    io::print_hex(1, u64::from(checksum(bytes)), 8);
}

// A record, in hexadecimal where it has at most so many bytes.
pub fn print_record(bytes: &[u8], most: usize)
    requires { (16 ≤ most) × (most ≤ 256) }
{
    io::write_all(1, b" ");
    if bytes.len() <= most {
        print_hex(bytes);
    } else {
        print_long(bytes);
    }
}

// How many bytes the record has that a buffer starts with, by its length field; 0 where the buffer does not hold so many.
// No Option: each caller takes the front of that length, which is empty then.
pub fn record_length(buffer: &[u8]) -> usize
    ensures { IsPrefixLen result buffer.now }
{
    let [high, low, ..] = buffer else {
        return 0;
    };
    let n = 2 + usize::from(u16::from_be_bytes([*high, *low]));
    if buffer.len() < n { 0 } else { n }
}
