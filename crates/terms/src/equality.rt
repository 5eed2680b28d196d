// An equality under a bet stack: the unifier of the values of its two terms, from the bytes of an event to the bytes of a bet.
ghost use Rattle.std.specs.Prelude.{◌≡◌, List, ◌+◌, ◌*◌, ◌≤◌, length};
ghost use Rattle.records.specs.Format.Syntax.{Bet};
ghost use Rattle.terms.specs.Values.Applied.{TermAt};
ghost use Rattle.terms.specs.Values.Entries.{PairsListed};
ghost use Rattle.std.proofs.Math.Option.{some};
ghost use Rattle.records.specs.Gate.Question.{refusal_number};
ghost use Rattle.terms.specs.Theory.Outcome.{value_under, outcome_of};
ghost use Rattle.terms.specs.Unifier.UnifierAnswer.{Unifiable};
ghost use Rattle.terms.specs.Unifier.Equality.{as_refusal, unifier_refusal, OneValue, UnifierAnswered, ValuesAnswered, EqualityUnder, UnifierUnder};

use crate::apply::listed_value;
use crate::nodes::{Classes, Node};
use crate::pairs::{ListedPair, UNLISTED, list_bets};
use crate::tables::{
    MOST_NODES, MOST_PAIRS, SHORT_EVENT, SHORT_NODES, SHORT_PAIRS, SHORT_VALUES, SMALL_EVENT,
    SMALL_PAIRS,
};
use crate::unifier::{UnifierFound, put_unifier, unify_values};
use records::kinds::{RECORD_LIMIT, VALUE_LIMIT};
use records::put::Range;
use records::questions::Refusal;

// A value is too long: question 8. The unifier is too long for a record or the output: question 10.
#[derive(Clone, Copy, PartialEq, Eq)]
pub enum UnifierRefusal {
    TooLarge,
    TooLong,
}

// How many bytes the count and pairs of the unifier have, or none where there is no unifier.
pub type UnifierAnswer = Result<Option<usize>, UnifierRefusal>;

impl From<UnifierRefusal> for Refusal {
    ghost from_gives = { λ u r. (r ≡ as_refusal u) × (refusal_number r ≡ unifier_refusal u) };

    fn from(refusal: UnifierRefusal) -> Refusal {
        match refusal {
            UnifierRefusal::TooLarge => Refusal::Values,
            UnifierRefusal::TooLong => Refusal::Fits,
        }
    }
}

// The unifier of two values, by tables that are lent, its count and pairs written from the start of the output on.
fn unifier_in(
    a: &[u8],
    b: &[u8],
    table: &mut [Node],
    rep: &mut [usize],
    size: &mut [usize],
    out: &mut [u8],
) -> UnifierAnswer
    requires { Unifiable a.now b.now table.old rep.old size.old }
    ensures { ValuesAnswered a.now b.now out.old out.new result }
{
    let Some(UnifierFound { nodes, length }) = unify_values(a, b, table, rep, size) else {
        return Ok(None);
    };
    if RECORD_LIMIT < length {
        return Err(UnifierRefusal::TooLong);
    }
    if out.len() < length {
        return Err(UnifierRefusal::TooLong);
    }
    put_unifier(Classes { table, rep, size }, nodes, out, 0);
    Ok(Some(length))
}

// By tables of N nodes.
fn unify<const N: usize>(a: &[u8], b: &[u8], out: &mut [u8]) -> UnifierAnswer
    requires one_value { OneValue a.now × OneValue b.now }
    requires room { (length a.now + length b.now ≤ 3 * N) × (N ≤ 5462) }
    ensures { ValuesAnswered a.now b.now out.old out.new result }
{
    let mut table = [Node::BLANK; N];
    let mut rep = [0; N];
    let mut size = [0; N];
    unifier_in(a, b, &mut table, &mut rep, &mut size, out)
}

// Tables for short values are cheaper to clear.
fn write_unifier(a: &[u8], b: &[u8], out: &mut [u8]) -> UnifierAnswer
    requires { OneValue a.now × OneValue b.now }
    ensures { ValuesAnswered a.now b.now out.old out.new result }
{
    if a.len() + b.len() <= SHORT_VALUES {
        unify::<SHORT_NODES>(a, b, out)
    } else {
        unify::<MOST_NODES>(a, b, out)
    }
}

// The unifier of the value a and the value that a bet stack, whose pairs are listed, gives the term at a range of the event.
fn unifier_with(
    event: &[u8],
    entries: &[ListedPair],
    a: &[u8],
    right: Range,
    out: &mut [u8],
) -> UnifierAnswer
    requires pairs_listed { (bets : List Bet) × PairsListed bets event.now entries.now (length entries.now) }
    requires term_at { TermAt event.now right.from right.to }
    requires one_value { OneValue a.now }
    ensures { (bets : List Bet) → PairsListed bets event.now entries.now (length entries.now) → (v : OneValue a.now) (t : TermAt event.now right.from right.to) → UnifierAnswered out.old out.new (outcome_of (some v.value.term) (value_under bets t.term)) result }
{
    let mut b: [u8; VALUE_LIMIT] = [0; VALUE_LIMIT];
    let Some(m) = listed_value(event, entries, event, right.from, &mut b) else {
        return Err(UnifierRefusal::TooLarge);
    };
    write_unifier(a, &b[..m], out)
}

// The unifier of the values that the n bets at `bets` of the event give the terms at two of its ranges. The bets' pairs are listed once for both.
fn unifier_by(
    event: &[u8],
    bets: usize,
    n: usize,
    left: Range,
    right: Range,
    table: &mut [ListedPair],
    out: &mut [u8],
) -> UnifierAnswer
    requires equality_under { EqualityUnder event.now bets n left right }
    requires event_len_bound { length event.now ≤ 5 * length table.old }
    ensures { UnifierUnder event.now bets n left right out.old out.new result }
{
    let k = list_bets(event, bets, n, table);
    let entries = &table[..k];
    let mut a: [u8; VALUE_LIMIT] = [0; VALUE_LIMIT];
    let Some(m) = listed_value(event, entries, event, left.from, &mut a) else {
        return Err(UnifierRefusal::TooLarge);
    };
    unifier_with(event, entries, &a[..m], right, out)
}

// By tables of N pairs.
fn unifier_of<const N: usize>(
    event: &[u8],
    bets: usize,
    n: usize,
    left: Range,
    right: Range,
    out: &mut [u8],
) -> UnifierAnswer
    requires equality_under { EqualityUnder event.now bets n left right }
    requires room { (length event.now ≤ 5 * N) × (N ≤ 6554) }
    ensures { UnifierUnder event.now bets n left right out.old out.new result }
{
    let mut table = [UNLISTED; N];
    unifier_by(event, bets, n, left, right, &mut table, out)
}

// The unifier of the values that the n bets at `bets` of the event give the terms at two of its ranges. Tables for small events are cheaper to
// clear.
pub fn unifier_under(
    event: &[u8],
    bets: usize,
    n: usize,
    left: Range,
    right: Range,
    out: &mut [u8],
) -> UnifierAnswer
    requires equality_under { EqualityUnder event.now bets n left right }
    requires event_len_bound { length event.now ≤ 32768 }
    ensures { UnifierUnder event.now bets n left right out.old out.new result }
{
    if event.len() <= SMALL_EVENT {
        unifier_of::<SMALL_PAIRS>(event, bets, n, left, right, out)
    } else if event.len() <= SHORT_EVENT {
        unifier_of::<SHORT_PAIRS>(event, bets, n, left, right, out)
    } else {
        unifier_of::<MOST_PAIRS>(event, bets, n, left, right, out)
    }
}
