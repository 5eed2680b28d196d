// Question 4: the order, variable and pair rules of records that the grammar has read.
ghost use Rattle.std.specs.Prelude.{◌≡◌, not, ◌≤◌, length};
ghost use Rattle.records.specs.Gate.RecordRules.{every, exactly, bound, free, unifier_rules, bet_rules, definition_rules, clause_rules};
ghost use Rattle.records.specs.Gate.Sets.{is_marked, all_marked};
ghost use Rattle.records.specs.Format.Items.{many, read_binding, read_bet, read_definition, read_clause};
ghost use Rattle.records.specs.Ends.Traversal.{traverse, end_of};
ghost use Rattle.records.specs.Ends.Steps.{On, met};
ghost use Rattle.records.specs.Gate.Rows.{Ends, kept_at, row_at, item_kept, items_kept};
ghost use Rattle.records.specs.Ends.ItemEnds.{item_end, items_end};
ghost use Rattle.records.specs.Gate.Ranks.{rank_at, ranked_end, ranks_end, ranks_rise};

use crate::ends::{Item, binding_end, definition_end, item_end};
use crate::heads::{BetHead, bet_head, clause_head, definition_head, word_at};
use crate::sets::{MARK_WORDS, VariableMarks, is_full, with_variable};
use crate::traverse::{Cursor, NodeStep, next_node, variables_top};

// Whether exactly the variables 0 to v - 1 are met: a set with one bit for each, compared with the full mask.
fn meets_exactly(s: &[u8], start: Cursor, v: usize) -> bool
    requires v_bound { v ≤ 64 }
    requires on { On (traverse s.now start.pos start.terms start.goals) }
    ensures { result ≡ exactly v (met (traverse s.now start.pos start.terms start.goals)) }
{
    let mut c = start;
    let mut set: u64 = 0;
    while let Some(step) = next_node(s, c) {
        match step {
            NodeStep::Variable(x, next) => {
                if v <= x {
                    return false;
                }
                set = with_variable(set, x);
                c = next;
            }
            NodeStep::Other(next) => c = next,
        }
    }
    is_full(set, v)
}

// Whether no marked variable occurs in the term at `at`.
fn avoids(s: &[u8], at: usize, marks: &VariableMarks) -> bool
    requires { On (traverse s.now at 1 0) }
    ensures { result ≡ every (λ x. not (is_marked marks.now.words x)) (met (traverse s.now at 1 0)) }
{
    let mut c = Cursor::term(at);
    while let Some(step) = next_node(s, c) {
        match step {
            NodeStep::Variable(x, next) => {
                if marks.is_marked(x) {
                    return false;
                }
                c = next;
            }
            NodeStep::Other(next) => c = next,
        }
    }
    true
}

// Whether only the head's variables and the locals occur in the definition at `at`.
fn definition_kept(s: &[u8], at: usize) -> bool
    requires { Ends (end_of read_definition s.now at) }
    ensures { result ≡ kept_at definition_rules read_definition s.now at }
{
    let Some(signature) = definition_head(s, at) else {
        return true;
    };
    let found = variables_top(s, Cursor::goal(at + 4));
    found.top <= signature.arity + signature.count
}

// Whether exactly its variables occur in the clause at `at`.
fn clause_kept(s: &[u8], at: usize) -> bool
    requires { Ends (end_of read_clause s.now at) }
    ensures { result ≡ kept_at clause_rules read_clause s.now at }
{
    let Some(signature) = clause_head(s, at) else {
        return true;
    };
    let parts = Cursor {
        pos: at + 4,
        terms: signature.arity,
        goals: 1,
    };
    meets_exactly(s, parts, signature.count)
}

// A row of items with a number each: pairs by their variable, definitions by predicate, then arity. No closure tells the number: the definition
// `ranks_rise` goes over the same two kinds.
#[derive(Clone, Copy)]
pub enum Ranked {
    Pairs,
    Definitions,
}

// The number of the item at `at`.
fn rank_at(s: &[u8], at: usize, row: Ranked) -> Option<usize>
    ensures { result ≡ rank_at row s.now at }
{
    match row {
        Ranked::Pairs => word_at(s, at),
        Ranked::Definitions => {
            let signature = definition_head(s, at)?;
            Some(signature.predicate * 256 + signature.arity)
        }
    }
}

fn ranked_end(s: &[u8], at: usize, row: Ranked) -> Option<usize>
    ensures { result ≡ ranked_end row s.now at }
{
    match row {
        Ranked::Pairs => binding_end(s, at),
        Ranked::Definitions => definition_end(s, at),
    }
}

// Whether the numbers of n items rise strictly.
pub fn ranks_rise(s: &[u8], at: usize, row: Ranked, n: usize) -> bool
    requires { Ends (ranks_end row n s.now at) }
    ensures { result ≡ ranks_rise row 0 n s.now at }
{
    let mut pos = at;
    let mut low: usize = 0;
    for _ in 0..n {
        let Some(x) = rank_at(s, pos, row) else {
            return true;
        };
        let Some(e) = ranked_end(s, pos, row) else {
            return true;
        };
        if x < low {
            return false;
        }
        low = x + 1;
        pos = e;
    }
    true
}

// Mark the variables of n pairs.
fn mark_bound(s: &[u8], at: usize, n: usize, marks: &mut VariableMarks)
    requires { Ends (end_of (many read_binding n) s.now at) }
    ensures { marks.new.words ≡ all_marked marks.old.words (bound (row_at read_binding n s.now at)) }
{
    let mut pos = at;
    for _ in 0..n {
        let Some(v) = word_at(s, pos) else {
            return;
        };
        let Some(e) = binding_end(s, pos) else {
            return;
        };
        marks.mark(v);
        pos = e;
    }
}

// Whether no marked variable occurs in the terms of n pairs.
fn free_avoid(s: &[u8], at: usize, n: usize, marks: &VariableMarks) -> bool
    requires { Ends (end_of (many read_binding n) s.now at) }
    ensures { result ≡ every (λ x. not (is_marked marks.now.words x)) (free (row_at read_binding n s.now at)) }
{
    let mut pos = at;
    for _ in 0..n {
        let Some(_) = word_at(s, pos) else {
            return true;
        };
        let Some(e) = binding_end(s, pos) else {
            return true;
        };
        if !avoids(s, pos + 2, marks) {
            return false;
        }
        pos = e;
    }
    true
}

// The pair rules of the unifier whose n pairs start at `at`.
fn unifier_kept(s: &[u8], at: usize, n: usize) -> bool
    requires { Ends (end_of (many read_binding n) s.now at) }
    ensures { result ≡ kept_at unifier_rules (many read_binding n) s.now at }
{
    if !ranks_rise(s, at, Ranked::Pairs, n) {
        return false;
    }
    let mut marks = VariableMarks {
        words: [0; MARK_WORDS],
    };
    mark_bound(s, at, n, &mut marks);
    free_avoid(s, at, n, &marks)
}

// A bet's rules: only a unifier has any.
fn bet_kept(s: &[u8], at: usize) -> bool
    requires { Ends (end_of read_bet s.now at) }
    ensures { result ≡ kept_at bet_rules read_bet s.now at }
{
    let Some(head) = bet_head(s, at) else {
        return true;
    };
    match head {
        BetHead::Unifier(n) => unifier_kept(s, at + 3, n),
        BetHead::Or(_) | BetHead::By => true,
    }
}

#[inline(always)]
fn item_kept(s: &[u8], at: usize, item: Item) -> bool
    requires { Ends (item_end item s.now at) }
    ensures { result ≡ item_kept item s.now at }
{
    match item {
        Item::Ancestor => true,
        Item::Bet => bet_kept(s, at),
        Item::Definition => definition_kept(s, at),
        Item::Clause => clause_kept(s, at),
    }
}

// The rules of each of n items of one kind.
#[inline(always)]
pub fn items_kept(s: &[u8], at: usize, item: Item, n: usize) -> bool
    requires { Ends (items_end item n s.now at) }
    ensures { result ≡ items_kept item n s.now at }
{
    let mut pos = at;
    for _ in 0..n {
        if !item_kept(s, pos, item) {
            return false;
        }
        let Some(e) = item_end(s, pos, item) else {
            return true;
        };
        pos = e;
    }
    true
}
