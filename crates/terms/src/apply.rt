// S(T): a bet stack applied to a term, the bottom unifier first.
ghost use Rattle.std.specs.Prelude.{◌≡◌, List, ℕ, length};
ghost use Rattle.records.specs.Format.Syntax.{Bet};
ghost use Rattle.terms.specs.Theory.Outcome.{value_limit};
ghost use Rattle.terms.specs.Values.Entries.{PairsListed};
ghost use Rattle.terms.specs.Values.Pairs.{PairsOf};
ghost use Rattle.terms.specs.Values.Answered.{Answered, Buffers};
ghost use Rattle.terms.specs.Values.Applied.{TermAt};
ghost use Rattle.terms.specs.Standing.BetRow.{RuledBets};

use crate::pairs::{ListedPair, PairList, list_bets};
use crate::substitute::{Replacing, put_nodes};
use records::traverse::Cursor;

// A bet stack whose pairs are listed and linked, applied to the term at `from` of src. The value is left in the output.
pub fn linked_value(pairs: PairList<'_>, src: &[u8], from: usize, out: &mut [u8]) -> Option<usize>
    requires pairs_of { (bets : List Bet) × PairsOf bets pairs }
    requires by_index { (to : ℕ) × TermAt src.now from to }
    requires out_len { length out.old ≡ value_limit }
    ensures { (bets : List Bet) → PairsOf bets pairs.entry → (to : ℕ) (q : TermAt src.now from to) → Answered bets q.term out.new result }
{
    let term = Cursor {
        pos: from,
        terms: 1,
        goals: 0,
    };
    put_nodes(Replacing::Pairs(pairs), src, term, out)
}

// The same where no pair is linked, as it pays for one value or two.
pub fn listed_value(
    event: &[u8],
    entries: &[ListedPair],
    src: &[u8],
    from: usize,
    out: &mut [u8],
) -> Option<usize>
    requires pairs_listed { (bets : List Bet) × PairsListed bets event.now entries.now (length entries.now) }
    requires by_index { (to : ℕ) × TermAt src.now from to }
    requires out_len { length out.old ≡ value_limit }
    ensures { (bets : List Bet) → PairsListed bets event.now entries.now (length entries.now) → (to : ℕ) (q : TermAt src.now from to) → Answered bets q.term out.new result }
{
    let pairs = PairList {
        event,
        entries,
        links: &[],
    };
    linked_value(pairs, src, from, out)
}

// The n bets at `at` of the event applied to the term at `from` of src. The value is left in the output; the table is for the pairs of the bets.
pub fn apply_bets(
    event: &[u8],
    at: usize,
    n: usize,
    src: &[u8],
    from: usize,
    entries: &mut [ListedPair],
    out: &mut [u8],
) -> Option<usize>
    requires ruled_bets { RuledBets event.now at n }
    requires by_index { (to : ℕ) × TermAt src.now from to }
    requires buffers { Buffers event.now entries.old out.old }
    ensures { (p : RuledBets event.now at n) (to : ℕ) (q : TermAt src.now from to) → Answered p.row.items q.term out.new result }
{
    let k = list_bets(event, at, n, entries);
    let listed = &entries[..k];
    listed_value(event, listed, src, from, out)
}
