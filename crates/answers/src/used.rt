// The bodies and branches among the bets of an event: measured, and written from the lowest bet up.
ghost use Rattle.std.specs.Prelude.{◌≡◌, ◌-◌, ◌≤◌, ◌<◌, ◌^◌, length};
ghost use Rattle.records.specs.Format.Encode.{each, bet_bytes};
ghost use Rattle.records.specs.Format.Heads.{bet_head_at};
ghost use Rattle.records.specs.Ends.Range.{cut, Inside};
ghost use Rattle.records.specs.Writing.Patched.{Put};
ghost use Rattle.terms.specs.Standing.Frames.{BetsAt};
ghost use Rattle.answers.specs.Form.Answer.{used_of};
ghost use Rattle.answers.specs.Writing.Used.{head_used, used_size, with_bet, bytes_used, if_used};

use records::ends::{bet_end, position};
use records::heads::{BetHead, bet_head};
use records::put::{Range, put_range};

// How many bodies and branches there are, and how many bytes they have.
#[derive(Clone, Copy)]
pub struct UsedSize {
    pub count: usize,
    pub length: usize,
}

// Whether the bet at a position is a body or a branch.
fn is_used(event: &[u8], at: usize) -> bool
    ensures { result ≡ head_used (bet_head_at event.now at) }
{
    matches!(bet_head(event, at), Some(BetHead::Or(_) | BetHead::By))
}

// One more that has so many bytes, if the bet at a position is one.
fn with_bet(size: UsedSize, event: &[u8], at: usize, bytes: usize) -> UsedSize
    requires { (size.count < 2 ^ 32) × (size.length < 2 ^ 32) × (bytes < 2 ^ 63) }
    ensures { result ≡ with_bet (head_used (bet_head_at event.now at)) size bytes }
{
    if is_used(event, at) {
        return UsedSize {
            count: size.count + 1,
            length: size.length + bytes,
        };
    }
    size
}

// Those among the n bets at a position.
pub fn used_size(event: &[u8], at: usize, n: usize) -> UsedSize
    requires bets_at { BetsAt event.now at n }
    requires event_len_bound { length event.now ≤ 32768 }
    ensures { (b : BetsAt event.now at n) → result ≡ used_size (used_of b.items) }
{
    let mut pos = at;
    let mut size = UsedSize {
        count: 0,
        length: 0,
    };
    for _ in 0..n {
        let end = position(bet_end(event, pos));
        size = with_bet(size, event, pos, end - pos);
        pos = end;
    }
    size
}

// Writes the bet at a position, which ends at `end`, before a place, if it is a body or a branch, and gives the place where it starts then.
fn put_bet(event: &[u8], at: usize, end: usize, out: &mut [u8], to: usize) -> usize
    requires inside { Inside (record { from = at; to = end }) event.now }
    requires at_bound { bytes_used (head_used (bet_head_at event.now at)) (end - at) ≤ to }
    requires to_in_bounds { to ≤ length out.old }
    ensures { Put out.old result (if_used (head_used (bet_head_at event.now at)) (cut event.now (record { from = at; to = end }))) out.new to }
{
    if is_used(event, at) {
        let from = to - (end - at);
        put_range(out, from, event, Range { from: at, to: end });
        return from;
    }
    to
}

// Writes those among the n bets at a position. The top bet is the last, so they are written from the place behind them back.
pub fn put_used(event: &[u8], at: usize, n: usize, out: &mut [u8], to: usize)
    requires b_len_bound { (b : BetsAt event.now at n) × (length (each bet_bytes (used_of b.items)) ≤ to) }
    requires to_in_bounds { to ≤ length out.old }
    ensures { (b : BetsAt event.now at n) → length (each bet_bytes (used_of b.items)) ≤ to → Put out.old (to - length (each bet_bytes (used_of b.items))) (each bet_bytes (used_of b.items)) out.new to }
{
    let mut pos = at;
    let mut from = to;
    for _ in 0..n {
        let end = position(bet_end(event, pos));
        from = put_bet(event, pos, end, out, from);
        pos = end;
    }
}
