// The first bytes of what stands at a position: its kind and numbers.
ghost use Rattle.std.specs.Prelude.{◌≡◌, ◌+◌, ◌-◌, ◌≤◌, ◌<◌, length, get_or};
ghost use Rattle.records.specs.Format.Heads.{joined, is_tag, unifier_head, term_head_at, goal_head_at, atom_head_at, half_head_at, ancestor_head_at, bet_head_at, or_head_at, word_at, definition_head_at, clause_head_at};

use crate::kinds::{ARITY_LIMIT, *};

// A variable, or a symbol and its arity.
#[derive(Clone, Copy)]
pub enum TermHead {
    Variable(usize),
    Symbol(usize, usize),
}

// An atom has its predicate and its arity.
#[derive(Clone, Copy)]
pub enum GoalHead {
    Truth,
    Failure,
    Equal,
    Conj,
    Disj,
    Atom(usize, usize),
}

// A conjunction and a disjunction have their tag.
#[derive(Clone, Copy)]
pub enum AncestorHead {
    Called(usize, usize),
    InConj(usize),
    InDisj(usize),
}

// A unifier has its count of pairs, OR its tag.
#[derive(Clone, Copy)]
pub enum BetHead {
    Unifier(usize),
    Or(usize),
    By,
}

// What a definition or a clause starts with: predicate, arity, and the number of locals or of variables.
#[derive(Clone, Copy)]
pub struct Signature {
    pub predicate: usize,
    pub arity: usize,
    pub count: usize,
}

// What two bytes come to, the high one first.
fn two_bytes(s: &[u8], at: usize) -> usize
    requires { at + 2 ≤ length s.now }
    ensures { (result ≡ joined (get_or s.now at 0) (get_or s.now (at + 1) 0)) × (result < 65536) }
{
    usize::from(s[at]) * 256 + usize::from(s[at + 1])
}

// The number of bytes from `at` on.
pub fn room(s: &[u8], at: usize) -> usize
    ensures { result ≡ length s.now - at }
{
    s.len().saturating_sub(at)
}

pub fn term_head(s: &[u8], at: usize) -> Option<TermHead>
    ensures { result ≡ term_head_at s.now at }
{
    let left = room(s, at);
    if left < 3 {
        return None;
    }
    let b = s[at];
    let n = two_bytes(s, at + 1);
    if b == VARIABLE {
        return Some(TermHead::Variable(n));
    }
    if b != SYMBOL || left < 4 {
        return None;
    }
    let k = usize::from(s[at + 3]);
    if k <= ARITY_LIMIT {
        Some(TermHead::Symbol(n, k))
    } else {
        None
    }
}

fn atom_head(s: &[u8], at: usize) -> Option<GoalHead>
    requires { at ≤ length s.now }
    ensures { result ≡ atom_head_at s.now at }
{
    if s.len() - at < 3 {
        return None;
    }
    let p = two_bytes(s, at);
    let k = usize::from(s[at + 2]);
    if k <= ARITY_LIMIT {
        Some(GoalHead::Atom(p, k))
    } else {
        None
    }
}

pub fn goal_head(s: &[u8], at: usize) -> Option<GoalHead>
    ensures { result ≡ goal_head_at s.now at }
{
    if s.len() <= at {
        return None;
    }
    match s[at] {
        TRUTH => Some(GoalHead::Truth),
        FAILURE => Some(GoalHead::Failure),
        EQUAL => Some(GoalHead::Equal),
        CONJ => Some(GoalHead::Conj),
        DISJ => Some(GoalHead::Disj),
        ATOM => atom_head(s, at + 1),
        _ => None,
    }
}

// The head of an ancestor that is no atom.
fn half_head(s: &[u8], at: usize) -> Option<AncestorHead>
    ensures { result ≡ half_head_at s.now at }
{
    if room(s, at) < 2 {
        return None;
    }
    let b = s[at];
    let k = usize::from(s[at + 1]);
    if !is_tag(k) {
        return None;
    }
    match b {
        IN_CONJ => Some(AncestorHead::InConj(k)),
        IN_DISJ => Some(AncestorHead::InDisj(k)),
        _ => None,
    }
}

fn is_tag(k: usize) -> bool
    ensures { result ≡ is_tag k }
{
    k == 1 || k == 2
}

pub fn ancestor_head(s: &[u8], at: usize) -> Option<AncestorHead>
    ensures { result ≡ ancestor_head_at s.now at }
{
    let Some(head) = goal_head(s, at) else {
        return half_head(s, at);
    };
    match head {
        GoalHead::Atom(p, k) => Some(AncestorHead::Called(p, k)),
        GoalHead::Truth | GoalHead::Failure | GoalHead::Equal | GoalHead::Conj | GoalHead::Disj =>
            half_head(s, at),
    }
}

// A two-byte number.
pub fn word_at(s: &[u8], at: usize) -> Option<usize>
    ensures { result ≡ word_at s.now at }
{
    if room(s, at) < 2 {
        return None;
    }
    Some(two_bytes(s, at))
}

fn unifier_head(w: Option<usize>) -> Option<BetHead>
    ensures { result ≡ unifier_head w }
{
    Some(BetHead::Unifier(w?))
}

fn or_head(s: &[u8], at: usize) -> Option<BetHead>
    ensures { result ≡ or_head_at s.now at }
{
    if s.len() <= at {
        return None;
    }
    let k = usize::from(s[at]);
    if is_tag(k) {
        Some(BetHead::Or(k))
    } else {
        None
    }
}

pub fn bet_head(s: &[u8], at: usize) -> Option<BetHead>
    ensures { result ≡ bet_head_at s.now at }
{
    if s.len() <= at {
        return None;
    }
    match s[at] {
        UNIFIER => unifier_head(word_at(s, at + 1)),
        OR => or_head(s, at + 1),
        BY => Some(BetHead::By),
        _ => None,
    }
}

pub fn definition_head(s: &[u8], at: usize) -> Option<Signature>
    ensures { result ≡ definition_head_at s.now at }
{
    if room(s, at) < 4 {
        return None;
    }
    let signature = Signature {
        predicate: two_bytes(s, at),
        arity: usize::from(s[at + 2]),
        count: usize::from(s[at + 3]),
    };
    if signature.arity <= ARITY_LIMIT {
        Some(signature)
    } else {
        None
    }
}

// The most variables that a clause has.
const VARIABLE_LIMIT: usize = 64;

pub fn clause_head(s: &[u8], at: usize) -> Option<Signature>
    ensures { result ≡ clause_head_at s.now at }
{
    let signature = definition_head(s, at)?;
    if signature.count <= VARIABLE_LIMIT {
        Some(signature)
    } else {
        None
    }
}
