// Where what stands at a position ends. Terms and argument lists call each other over fewer and fewer bytes; all else is gone through without recursion.
// What a row is gone through by is inlined where the kind of its items is known, so that no turn of the loop asks for it.
ghost use Rattle.std.specs.Prelude.{◌≡◌, ◌≤◌};
ghost use Rattle.records.specs.Format.Items.{many, read_ancestor, read_binding, read_bet, read_definition, read_clause};
ghost use Rattle.records.specs.Ends.Traversal.{position, end_at, end_of};
ghost use Rattle.records.specs.Ends.EndLaws.{next_goal, announced};
ghost use Rattle.records.specs.Ends.ItemEnds.{item_end, items_end};

use crate::heads::{
    AncestorHead, BetHead, GoalHead, TermHead, ancestor_head, bet_head, clause_head,
    definition_head, goal_head, term_head, word_at,
};

// The place that was found, else 0: a number and no Option, for code that puts it into a range.
pub fn position(found: Option<usize>) -> usize
    ensures { result ≡ position found }
{
    found.unwrap_or(0)
}

// A term. Of a constant no argument list is looked for.
#[cycle(args_end_term_end)]
pub fn term_end(s: &[u8], at: usize) -> Option<usize>
    ensures { result ≡ end_at s.now at 1 0 }
{
    match term_head(s, at)? {
        TermHead::Variable(_) => Some(at + 3),
        TermHead::Symbol(_, 0) => Some(at + 4),
        TermHead::Symbol(_, k) => args_end(s, at + 4, k),
    }
}

// An argument list of k terms. The end so far goes from turn to turn as it was told: with a place in its stead, each level of nested terms would take half
// as much stack again.
#[cycle(args_end_term_end)]
pub fn args_end(s: &[u8], at: usize, k: usize) -> Option<usize>
    ensures { result ≡ end_at s.now at k 0 }
{
    let mut end = Some(at);
    for _ in 0..k {
        end = term_end(s, end?);
    }
    end
}

// What follows a goal's own head and terms: from where on, and how many goals the head announced.
#[derive(Clone, Copy)]
pub struct Ahead {
    pub at: usize,
    pub goals: usize,
}

fn announced(terms_end: Option<usize>) -> Option<Ahead>
    ensures { result ≡ announced terms_end }
{
    Some(Ahead {
        at: terms_end?,
        goals: 0,
    })
}

// One goal's head, and the terms that follow it.
fn next_goal(s: &[u8], at: usize) -> Option<Ahead>
    ensures { result ≡ next_goal s.now at }
{
    match goal_head(s, at)? {
        GoalHead::Truth | GoalHead::Failure => announced(Some(at + 1)),
        GoalHead::Equal => announced(args_end(s, at + 1, 2)),
        GoalHead::Conj | GoalHead::Disj => Some(Ahead {
            at: at + 1,
            goals: 2,
        }),
        GoalHead::Atom(_, k) => announced(args_end(s, at + 4, k)),
    }
}

// A row of g goals. The goals to come are counted, so no nesting goes on the stack; no `for`, since a head adds to the count.
pub fn goals_end(s: &[u8], at: usize, g: usize) -> Option<usize>
    requires { g ≤ 65536 }
    ensures { result ≡ end_at s.now at 0 g }
{
    let mut pos = at;
    let mut left = g;
    while 0 < left {
        let next = next_goal(s, pos)?;
        pos = next.at;
        left = next.goals + (left - 1);
    }
    Some(pos)
}

// k terms and then g goals.
pub fn parts_end(s: &[u8], at: usize, k: usize, g: usize) -> Option<usize>
    requires { g ≤ 65536 }
    ensures { result ≡ end_at s.now at k g }
{
    goals_end(s, args_end(s, at, k)?, g)
}

#[inline(always)]
pub fn ancestor_end(s: &[u8], at: usize) -> Option<usize>
    ensures { result ≡ end_of read_ancestor s.now at }
{
    match ancestor_head(s, at)? {
        AncestorHead::Called(_, k) => args_end(s, at + 4, k),
        AncestorHead::InConj(_) | AncestorHead::InDisj(_) => goals_end(s, at + 2, 2),
    }
}

// A pair of a unifier.
pub fn binding_end(s: &[u8], at: usize) -> Option<usize>
    ensures { result ≡ end_of read_binding s.now at }
{
    word_at(s, at)?;
    term_end(s, at + 2)
}

pub fn bindings_end(s: &[u8], at: usize, n: usize) -> Option<usize>
    ensures { result ≡ end_of (many read_binding n) s.now at }
{
    let mut pos = at;
    for _ in 0..n {
        pos = binding_end(s, pos)?;
    }
    Some(pos)
}

#[inline(always)]
pub fn bet_end(s: &[u8], at: usize) -> Option<usize>
    ensures { result ≡ end_of read_bet s.now at }
{
    match bet_head(s, at)? {
        BetHead::Unifier(n) => bindings_end(s, at + 3, n),
        BetHead::Or(_) => Some(at + 2),
        BetHead::By => goals_end(s, at + 1, 1),
    }
}

pub fn definition_end(s: &[u8], at: usize) -> Option<usize>
    ensures { result ≡ end_of read_definition s.now at }
{
    definition_head(s, at)?;
    goals_end(s, at + 4, 1)
}

pub fn clause_end(s: &[u8], at: usize) -> Option<usize>
    ensures { result ≡ end_of read_clause s.now at }
{
    let signature = clause_head(s, at)?;
    parts_end(s, at + 4, signature.arity, 1)
}

// What a record holds a row of. No closure tells how one is read: the definitions of rows and of their rules go over the same four kinds.
#[derive(Clone, Copy)]
pub enum Item {
    Ancestor,
    Bet,
    Definition,
    Clause,
}

#[inline(always)]
pub fn item_end(s: &[u8], at: usize, item: Item) -> Option<usize>
    ensures { result ≡ item_end item s.now at }
{
    match item {
        Item::Ancestor => ancestor_end(s, at),
        Item::Bet => bet_end(s, at),
        Item::Definition => definition_end(s, at),
        Item::Clause => clause_end(s, at),
    }
}

// A row of n items of one kind.
#[inline(always)]
pub fn items_end(s: &[u8], at: usize, item: Item, n: usize) -> Option<usize>
    ensures { result ≡ items_end item n s.now at }
{
    let mut pos = at;
    for _ in 0..n {
        pos = item_end(s, pos, item)?;
    }
    Some(pos)
}
