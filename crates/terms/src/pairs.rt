// The pairs of a bet stack in a table, the top bet's first.
ghost use Rattle.std.specs.Prelude.{◌≡◌, ◌+◌, ◌*◌, ◌≤◌, length};
ghost use Rattle.records.specs.Format.Heads.{bet_head_at};
ghost use Rattle.terms.specs.Standing.BetRow.{RuledBets, bet_pairs, head_pairs};
ghost use Rattle.terms.specs.Values.Entries.{PairsEntered, PairsListed};
ghost use Rattle.terms.specs.Standing.Frames.{PairsAt, BetAt};

use records::ends::{bet_end, position, term_end};
use records::heads::{BetHead, bet_head};

// An entry of the table: where a pair stands in the event, and how many entries stand before those of its bet.
#[derive(Clone, Copy)]
pub struct ListedPair {
    pub place: usize,
    pub first: usize,
}

// What a table holds before pairs are listed in it.
pub const UNLISTED: ListedPair = ListedPair { place: 0, first: 0 };

// The pairs of a bet stack: they stand in the event, each has an entry, and the links tell where a look for one begins.
#[derive(Clone, Copy)]
pub struct PairList<'a> {
    pub event: &'a [u8],
    pub entries: &'a [ListedPair],
    pub links: &'a [u16],
}

// How many pairs the bet at a position has; OR and BY have none.
pub fn pairs_at(event: &[u8], at: usize) -> usize
    ensures { result ≡ head_pairs (bet_head_at event.now at) }
{
    let Some(BetHead::Unifier(n)) = bet_head(event, at) else {
        return 0;
    };
    n
}

// The n pairs at `at`, all of one bet, from entry `first` on. Gives the number of entries there are then.
fn list_pairs(event: &[u8], at: usize, n: usize, first: usize, entries: &mut [ListedPair]) -> usize
    requires pairs_at { PairsAt event.now at n }
    requires n_in_bounds { first + n ≤ length entries.old }
    ensures { (p : PairsAt event.now at n) → PairsEntered event.now p.items first entries.old entries.new result }
{
    let end = first + n;
    let mut place = at;
    for k in first..end {
        entries[k] = ListedPair { place, first };
        place = position(term_end(event, place + 2));
    }
    end
}

// The pairs of the bet at `at`, from entry `first` on.
fn list_bet(event: &[u8], at: usize, first: usize, entries: &mut [ListedPair]) -> usize
    requires bet_at { BetAt event.now at }
    requires at_in_bounds { first + head_pairs (bet_head_at event.now at) ≤ length entries.old }
    ensures { (b : BetAt event.now at) → PairsEntered event.now (bet_pairs b.item) first entries.old entries.new result }
{
    let n = pairs_at(event, at);
    if n == 0 {
        return first;
    }
    list_pairs(event, at + 3, n, first, entries)
}

// All pairs of the n bets at `at`, and how many these are. A pair has at least 5 bytes.
pub fn list_bets(event: &[u8], at: usize, n: usize, entries: &mut [ListedPair]) -> usize
    requires ruled_bets { RuledBets event.now at n }
    requires event_len_bound { length event.now ≤ 5 * length entries.old }
    ensures { (p : RuledBets event.now at n) → PairsListed p.row.items event.now entries.new result }
{
    let mut pos = at;
    let mut k = 0;
    for _ in 0..n {
        k = list_bet(event, pos, k, entries);
        pos = position(bet_end(event, pos));
    }
    k
}
