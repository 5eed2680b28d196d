// One answer: the values of the query's variables, and the bodies and branches used. It is measured, refused by 8 or 10, and then written.
ghost use Rattle.std.specs.Prelude.{◌≡◌, ◌≤◌, ◌<◌, length};
ghost use Rattle.records.specs.Format.Formed.{All};
ghost use Rattle.records.specs.Gate.Receipt.{receipt_of};
ghost use Rattle.records.specs.Gate.Reply.{Receipted};
ghost use Rattle.records.specs.Writing.Patched.{Put};
ghost use Rattle.terms.specs.Standing.BetRow.{RuledBets};
ghost use Rattle.terms.specs.Theory.Outcome.{value_limit};
ghost use Rattle.terms.specs.Values.Answered.{Buffers};
ghost use Rattle.terms.specs.Values.Entries.{PairsListed};
ghost use Rattle.terms.specs.Values.Pairs.{PairsOf};
ghost use Rattle.answers.specs.Form.Answer.{solution_for, solution_into, solution_bytes};
ghost use Rattle.answers.specs.Writing.Solved.{solution_of, SolutionFits};

use crate::used::{UsedSize, put_used, used_size};
use crate::values::{put_value_pairs, values_length};
use records::put::put_word;
use records::questions::Refusal;
use terms::links::link_pairs;
use terms::pairs::{ListedPair, PairList, list_bets};
use terms::tables::LINKS;

// The two counts of an answer.
const COUNTS: usize = 4;

// Writes an answer that is given and fits.
fn write_answer(
    at: usize,
    n: usize,
    pairs: PairList<'_>,
    variables: &[usize],
    value: &mut [u8],
    used: UsedSize,
    out: &mut [u8],
) -> usize
    requires pairs_of { (p : RuledBets pairs.event.now at n) × PairsOf p.row.items pairs × SolutionFits variables.now p.row.items used (length out.old) }
    requires all { All (λ v. v < 65536) variables.now }
    requires value_len { length value.old ≡ value_limit }
    ensures { (p : RuledBets pairs.entry.event.now at n) → PairsOf p.row.items pairs.entry → SolutionFits variables.now p.row.items used (length out.old) → Put out.old 0 (solution_bytes (solution_of variables.now p.row.items)) out.new result }
{
    let pairs_at = put_word(out, 0, variables.len());
    let count_at = put_value_pairs(pairs, variables, value, out, pairs_at);
    let used_at = put_word(out, count_at, used.count);
    let end = used_at + used.length;
    put_used(pairs.event, at, n, out, end);
    end
}

// The answer by pairs that are listed and linked.
fn answer_by(
    at: usize,
    n: usize,
    pairs: PairList<'_>,
    variables: &[usize],
    value: &mut [u8],
    out: &mut [u8],
) -> Result<usize, Refusal>
    requires pairs_of { (p : RuledBets pairs.event.now at n) × PairsOf p.row.items pairs }
    requires event_len_bound { (length pairs.event.now ≤ 32768) × (length value.old ≡ value_limit) }
    requires all { All (λ v. v < 65536) variables.now }
    requires variables_len_bound { length variables.now ≤ 65535 }
    ensures { (p : RuledBets pairs.entry.event.now at n) → PairsOf p.row.items pairs.entry → Receipted (λ b. b) (solution_into (length out.old) (solution_for variables.now p.row.items)) out.old (receipt_of result) out.new }
{
    let size = values_length(pairs, variables, value).ok_or(Refusal::Values)?;
    let used = used_size(pairs.event, at, n);
    if out.len() < COUNTS + size + used.length {
        return Err(Refusal::Fits);
    }
    Ok(write_answer(at, n, pairs, variables, value, used, out))
}

// The answer by pairs that are listed; they are linked here.
fn linked_answer(
    event: &[u8],
    at: usize,
    n: usize,
    entries: &[ListedPair],
    variables: &[usize],
    value: &mut [u8],
    out: &mut [u8],
) -> Result<usize, Refusal>
    requires pairs_listed { (p : RuledBets event.now at n) × PairsListed p.row.items event.now entries.now (length entries.now) }
    requires event_len_bound { (length event.now ≤ 32768) × (length value.old ≡ value_limit) }
    requires all { All (λ v. v < 65536) variables.now }
    requires variables_len_bound { length variables.now ≤ 65535 }
    ensures { (p : RuledBets event.now at n) → PairsListed p.row.items event.now entries.now (length entries.now) → Receipted (λ b. b) (solution_into (length out.old) (solution_for variables.now p.row.items)) out.old (receipt_of result) out.new }
{
    let mut links: [u16; LINKS] = [0; LINKS];
    link_pairs(event, entries, &mut links);
    let pairs = PairList {
        event,
        entries,
        links: &links,
    };
    answer_by(at, n, pairs, variables, value, out)
}

// Where variables times pairs are fewer, the pairs are not linked: to look through them costs less than to clear a table for links.
const FEW_LOOKS: usize = 1024;

// The answer at an exit with n bets at a position, from the start of the output on. The table is for the pairs of the bets, which are listed once, and
// the buffer is for a value.
pub fn put_answer(
    event: &[u8],
    at: usize,
    n: usize,
    entries: &mut [ListedPair],
    variables: &[usize],
    value: &mut [u8],
    out: &mut [u8],
) -> Result<usize, Refusal>
    requires ruled_bets { RuledBets event.now at n }
    requires buffers { Buffers event.now entries.old value.old }
    requires event_len_bound { length event.now ≤ 32768 }
    requires all { All (λ v. v < 65536) variables.now }
    requires variables_len_bound { length variables.now ≤ 65535 }
    ensures { (p : RuledBets event.now at n) → Receipted (λ b. b) (solution_into (length out.old) (solution_for variables.now p.row.items)) out.old (receipt_of result) out.new }
{
    let k = list_bets(event, at, n, entries);
    let listed = &entries[..k];
    if k < FEW_LOOKS / (variables.len() + 1) {
        let pairs = PairList {
            event,
            entries: listed,
            links: &[],
        };
        return answer_by(at, n, pairs, variables, value, out);
    }
    linked_answer(event, at, n, listed, variables, value, out)
}
