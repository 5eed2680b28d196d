// The values of variables under a bet stack whose pairs are listed and linked: measured, and written as pairs.
ghost use Rattle.std.specs.Prelude.{◌≡◌, List, ◌≤◌, ◌<◌, length};
ghost use Rattle.records.specs.Format.Encode.{each, binding_bytes};
ghost use Rattle.records.specs.Format.Formed.{All};
ghost use Rattle.records.specs.Format.Syntax.{Bet};
ghost use Rattle.records.specs.Format.Syntax.Term.{var};
ghost use Rattle.records.specs.Writing.Patched.{Put};
ghost use Rattle.terms.specs.Theory.Outcome.{value_limit};
ghost use Rattle.terms.specs.Values.Answered.{Answered};
ghost use Rattle.terms.specs.Values.Pairs.{PairsOf};
ghost use Rattle.answers.specs.Form.Answer.{values_of};
ghost use Rattle.answers.specs.Writing.Values.{value_pair, value_pairs, pairs_sized, ValuePairFits, ValuePairsFit};

use records::kinds::VARIABLE;
use records::put::{Range, put_range, put_word};
use terms::apply::linked_value;
use terms::pairs::PairList;

// S(v). The value is left in the buffer.
fn listed_variable(pairs: PairList<'_>, v: usize, value: &mut [u8]) -> Option<usize>
    requires pairs_of { (bets : List Bet) × PairsOf bets pairs }
    requires v_bound { v < 65536 }
    requires value_len { length value.old ≡ value_limit }
    ensures { (bets : List Bet) → PairsOf bets pairs.entry → Answered bets (var v) value.new result }
{
    // It fits by proof; `try_from` would add a case that never comes.
    let [high, low] = (v as u16).to_be_bytes();
    let term: [u8; 3] = [VARIABLE, high, low];
    linked_value(pairs, &term, 0, value)
}

// How many bytes the variables have with their values, as pairs; or that a value is too large.
pub fn values_length(pairs: PairList<'_>, variables: &[usize], value: &mut [u8]) -> Option<usize>
    requires pairs_of { (bets : List Bet) × PairsOf bets pairs }
    requires all { All (λ v. v < 65536) variables.now }
    requires variables_len_bound { length variables.now ≤ 65536 }
    requires value_len { length value.old ≡ value_limit }
    ensures { (bets : List Bet) → PairsOf bets pairs.entry → result ≡ pairs_sized (values_of bets variables.now) }
{
    let mut sum = 0;
    for &v in variables {
        let m = listed_variable(pairs, v, value)?;
        sum += 2 + m;
    }
    Some(sum)
}

// A variable with its value as a pair.
fn put_value_pair(
    pairs: PairList<'_>,
    v: usize,
    value: &mut [u8],
    out: &mut [u8],
    at: usize,
) -> usize
    requires pairs_of { (bets : List Bet) × PairsOf bets pairs × ValuePairFits bets v at (length out.old) }
    requires v_bound { v < 65536 }
    requires value_len { length value.old ≡ value_limit }
    ensures { (bets : List Bet) → PairsOf bets pairs.entry → ValuePairFits bets v at (length out.old) → Put out.old at (binding_bytes (value_pair bets v)) out.new result }
{
    let term_at = put_word(out, at, v);
    let Some(m) = listed_variable(pairs, v, value) else {
        return term_at;
    };
    put_range(out, term_at, value, Range { from: 0, to: m })
}

// The variables with their values as pairs.
pub fn put_value_pairs(
    pairs: PairList<'_>,
    variables: &[usize],
    value: &mut [u8],
    out: &mut [u8],
    at: usize,
) -> usize
    requires pairs_of { (bets : List Bet) × PairsOf bets pairs × ValuePairsFit bets variables.now at (length out.old) }
    requires all { All (λ v. v < 65536) variables.now }
    requires value_len { length value.old ≡ value_limit }
    ensures { (bets : List Bet) → PairsOf bets pairs.entry → ValuePairsFit bets variables.now at (length out.old) → Put out.old at (each binding_bytes (value_pairs bets variables.now)) out.new result }
{
    let mut pos = at;
    for &v in variables {
        pos = put_value_pair(pairs, v, value, out, pos);
    }
    pos
}
