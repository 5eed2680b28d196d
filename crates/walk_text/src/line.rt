// The text of a walk: numbers in decimal, the line of an event, the stop line. Each writer puts its bytes at a place of an output.
ghost use Rattle.std.specs.Prelude.{[], ◌∷◌, ◌++◌, ◌+◌, ◌*◌, ◌≤◌, ◌<◌, length};
ghost use Rattle.records.specs.Writing.Patched.{Put};
ghost use Rattle.walk_text.specs.Line.{decimal, field, line_feed, byte_word, number_line, log_lines, stop_bytes};

use records::put::{put_byte, put_part};

// A number in decimal; one of 64 bits has 20 digits at most.
fn put_number(out: &mut [u8], at: usize, n: usize) -> usize
    requires { at + 20 ≤ length out.old }
    ensures put { Put out.old at (decimal n) out.new result }
    ensures within { result ≤ at + 20 }
{
    let mut digits = [0u8; 20];
    // `as`, since usize has no `From` into u64
    let k = io::decimal(n as u64, &mut digits);
    put_part(out, at, &digits[..k])
}

// A blank, and a number.
fn put_count(out: &mut [u8], at: usize, n: usize) -> usize
    requires { at + 21 ≤ length out.old }
    ensures put { Put out.old at (field (decimal n)) out.new result }
    ensures within { result ≤ at + 21 }
{
    let next = put_byte(out, at, b' ');
    put_number(out, next, n)
}

// The word of a port, which is given by its byte: the log that `run_from` writes has numbers.
fn put_port(out: &mut [u8], at: usize, port: usize) -> usize
    requires { at + 4 ≤ length out.old }
    ensures put { Put out.old at (byte_word port) out.new result }
    ensures within { result ≤ at + 4 }
{
    match port {
        1 => put_part(out, at, b"call"),
        2 => put_part(out, at, b"exit"),
        3 => put_part(out, at, b"fail"),
        _ => put_part(out, at, b"redo"),
    }
}

// The last fields of a line: two counts, and the line feed.
fn put_counts(out: &mut [u8], at: usize, ancestors: usize, bets: usize) -> usize
    requires { at + 43 ≤ length out.old }
    ensures put { Put out.old at (field (decimal ancestors) ++ (field (decimal bets) ++ (line_feed ∷ []))) out.new result }
    ensures within { result ≤ at + 43 }
{
    let bets_at = put_count(out, at, ancestors);
    let end_at = put_count(out, bets_at, bets);
    put_byte(out, end_at, b'\n')
}

// The line of an event, by its step and the numbers of its mark.
fn put_line(
    out: &mut [u8],
    at: usize,
    step: usize,
    port: usize,
    ancestors: usize,
    bets: usize,
) -> usize
    requires { at + 68 ≤ length out.old }
    ensures put { Put out.old at (number_line step port ancestors bets) out.new result }
    ensures within { result ≤ at + 68 }
{
    let blank_at = put_number(out, at, step);
    let port_at = put_byte(out, blank_at, b' ');
    let counts_at = put_port(out, port_at, port);
    put_counts(out, counts_at, ancestors, bets)
}

// The lines of a log, three numbers each, from a step on.
pub fn put_lines(out: &mut [u8], at: usize, first: usize, log: &[usize]) -> usize
    requires log_bound { first + length log.now < 4294967296 }
    requires log_bound_2 { 3 * at + 68 * length log.now ≤ 3 * length out.old }
    ensures put { Put out.old at (log_lines first log.now) out.new result }
    ensures within { 3 * result ≤ 3 * at + 68 * length log.now }
{
    let (marks, _) = log.as_chunks::<3>();
    let mut used = at;
    for (i, [port, ancestors, bets]) in marks.iter().enumerate() {
        used = put_line(out, used, first + i, *port, *ancestors, *bets);
    }
    used
}

// The stop line.
pub fn put_stop(out: &mut [u8], at: usize, number: u8) -> usize
    requires { at + 26 ≤ length out.old }
    ensures put { Put out.old at (stop_bytes number) out.new result }
    ensures within { result ≤ at + 26 }
{
    let number_at = put_part(out, at, b"stop");
    let end_at = put_count(out, number_at, usize::from(number));
    put_byte(out, end_at, b'\n')
}
