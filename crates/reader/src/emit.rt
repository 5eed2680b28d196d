// Writing from the right: one cell after another, the last one first, into a buffer that is filled from its end.
ghost use Rattle.std.specs.Prelude.{true, false, cond, List, [], ◌∷◌, ◌≡◌, ℕ, ◌+◌, ◌≤◌, ◌<◌, ◌^◌, length};
ghost use Rattle.reader.specs.Emit.Cells.{cell, emit_cell, top as top_of, whole as whole_of, primary as primary_of, reopened as reopened_of};
ghost use Rattle.reader.specs.Emit.Emits.{Turns, stacked, capped, placed as placed_by, one_fewer as one_fewer_by, with_bytes, with_symbol, with_clause, with_top};
ghost use Rattle.reader.specs.declared.emit.Behind.{Behind};
ghost use Rattle.reader.specs.declared.roles.Role.TheVariants as roles;

use crate::push::{push, push_clause, push_due, push_symbol, push_variable};
use records::kinds::{ATOM, CONJ, DISJ, EQUAL, SYMBOL, TRUTH};

// Whether a comma stands behind a primary, and a semicolon behind its conjunction.
#[derive(Clone, Copy)]
pub struct Behind {
    pub comma: bool,
    pub semicolon: bool,
}

impl Behind {
    pub const NOTHING: Behind = Behind {
        comma: false,
        semicolon: false,
    };
}

// Where the bytes start, whether an arity is over 16, the clauses, how many terms and brackets are open, what stands behind what is read, and the
// variables of its clause.
#[derive(Clone, Copy)]
pub struct Emission {
    pub at: usize,
    pub over: bool,
    pub clauses: usize,
    pub terms: usize,
    pub goals: usize,
    pub behind: Behind,
    pub equal: bool,
    pub variables: u8,
}

// Over 16 arguments are counted as 17.
const MANY: u8 = 17;

fn placed(e: Emission, at: usize) -> Emission
    ensures { result ≡ placed_by e at }
{
    Emission { at, ..e }
}

// A conjunction is whole.
pub fn whole(out: &mut [u8], e: Emission) -> Emission
    requires { e.at ≤ length out.old }
    ensures { (result.goals ≡ e.goals) × ((counts : List ℕ) (brackets : List Behind) → Turns out.old counts brackets e out.new counts brackets result whole_of) }
{
    let next = push_due(out, e.at, e.behind.semicolon, DISJ);
    Emission {
        at: next,
        behind: Behind {
            semicolon: false,
            ..e.behind
        },
        ..e
    }
}

// A primary is whole.
fn primary(out: &mut [u8], e: Emission) -> Emission
    requires { e.at ≤ length out.old }
    ensures { (counts : List ℕ) (brackets : List Behind) → Turns out.old counts brackets e out.new counts brackets result primary_of }
{
    let equality = push_due(out, e.at, e.equal, EQUAL);
    let next = push_due(out, equality, e.behind.comma, CONJ);
    Emission {
        at: next,
        behind: Behind {
            comma: false,
            ..e.behind
        },
        equal: false,
        ..e
    }
}

// How many arguments the term has that is read.
fn top_count(counts: &[u8], terms: usize) -> u8
    requires { terms ≤ length counts.now }
    ensures { result ≡ top_of (stacked 0 counts.now terms) }
{
    if terms == 0 {
        return 0;
    }
    counts[terms - 1]
}

// One term fewer is open.
fn one_fewer(e: Emission) -> Emission
    ensures { result ≡ one_fewer_by e }
{
    Emission {
        terms: e.terms.saturating_sub(1),
        ..e
    }
}

pub fn emit_variable(out: &mut [u8], e: Emission, v: u8) -> Emission
    requires { e.at ≤ length out.old }
    ensures { (a : ℕ) (counts : List ℕ) (brackets : List Behind) → Turns out.old counts brackets e out.new counts brackets result (emit_cell (cell roles.Variable a v)) }
{
    let next = push_variable(out, e.at, usize::from(v));
    placed(e, next)
}

// A symbol or a predicate; `count` is 17 for all arities over 16.
pub fn emit_symbol(out: &mut [u8], e: Emission, kind: u8, name: usize, count: u8) -> Emission
    requires { e.at ≤ length out.old }
    ensures { (length out.new ≡ length out.old) × (result.at ≤ e.at) × ((k : ℕ) → count ≡ capped k → (counts : List ℕ) (brackets : List Behind) → Turns out.old counts brackets e out.new counts brackets result (with_symbol kind name k)) }
{
    let next = push_symbol(out, e.at, kind, name, count);
    Emission {
        at: next,
        over: MANY <= count || e.over,
        ..e
    }
}

pub fn emit_functor(out: &mut [u8], counts: &[u8], e: Emission, kind: u8, name: usize) -> Emission
    requires at_in_bounds { e.at ≤ length out.old }
    requires terms_in_bounds { e.terms ≤ length counts.now }
    ensures { (brackets : List Behind) → Turns out.old counts.now brackets e out.new counts.now brackets result (with_top (with_symbol kind name)) }
{
    let count = top_count(counts, e.terms);
    emit_symbol(out, one_fewer(e), kind, name, count)
}

// A clause's head.
pub fn emit_head(out: &mut [u8], e: Emission, name: usize, count: u8) -> Emission
    requires { e.at ≤ length out.old }
    ensures { (length out.new ≡ length out.old) × (result.at ≤ e.at) × ((k : ℕ) → count ≡ capped k → (counts : List ℕ) (brackets : List Behind) → Turns out.old counts brackets e out.new counts brackets result (with_clause name k)) }
{
    let next = push_clause(out, e.at, name, count, e.variables);
    Emission {
        at: next,
        over: MANY <= count || e.over,
        variables: 0,
        ..e
    }
}

pub fn head_functor(out: &mut [u8], counts: &[u8], e: Emission, name: usize) -> Emission
    requires at_in_bounds { e.at ≤ length out.old }
    requires terms_in_bounds { e.terms ≤ length counts.now }
    ensures { (brackets : List Behind) → Turns out.old counts.now brackets e out.new counts.now brackets result (with_top (with_clause name)) }
{
    let count = top_count(counts, e.terms);
    emit_head(out, one_fewer(e), name, count)
}

// A symbol is a term where = stands behind it, and else an atom.
fn starting_kind(equal: bool) -> u8
    ensures { result ≡ cond equal 0x02 0x15 }
{
    if equal { SYMBOL } else { ATOM }
}

pub fn goal_variable(out: &mut [u8], e: Emission, v: u8) -> Emission
    requires { e.at ≤ length out.old }
    ensures { (a : ℕ) (counts : List ℕ) (brackets : List Behind) → Turns out.old counts brackets e out.new counts brackets result (emit_cell (cell roles.GoalVariable a v)) }
{
    let next = push_variable(out, e.at, usize::from(v));
    primary(out, placed(e, next))
}

pub fn goal_constant(out: &mut [u8], e: Emission, name: usize) -> Emission
    requires { e.at ≤ length out.old }
    ensures { (x : ℕ) (counts : List ℕ) (brackets : List Behind) → Turns out.old counts brackets e out.new counts brackets result (emit_cell (cell roles.GoalConstant name x)) }
{
    let symbol = emit_symbol(out, e, starting_kind(e.equal), name, 0);
    primary(out, symbol)
}

pub fn goal_functor(out: &mut [u8], counts: &[u8], e: Emission, name: usize) -> Emission
    requires at_in_bounds { e.at ≤ length out.old }
    requires terms_in_bounds { e.terms ≤ length counts.now }
    ensures { (x : ℕ) (brackets : List Behind) → Turns out.old counts.now brackets e out.new counts.now brackets result (emit_cell (cell roles.GoalFunctor name x)) }
{
    let symbol = emit_functor(out, counts, e, starting_kind(e.equal), name);
    primary(out, symbol)
}

// true or fail.
pub fn goal_plain(out: &mut [u8], e: Emission, kind: u8) -> Emission
    requires { e.at ≤ length out.old }
    ensures { (counts : List ℕ) (brackets : List Behind) → Turns out.old counts brackets e out.new counts brackets result (λ x. primary_of (with_bytes (kind ∷ []) x)) }
{
    let next = push(out, e.at, kind);
    primary(out, placed(e, next))
}

// A closing bracket behind arguments, and a comma between them.
pub fn shut(counts: &mut [u8], e: Emission) -> Emission
    requires { e.terms < length counts.old }
    ensures { (a x : ℕ) (out : List ℕ) (brackets : List Behind) → Turns out counts.old brackets e out counts.new brackets result (emit_cell (cell roles.Shut a x)) }
{
    let terms = e.terms;
    counts[terms] = 1;
    Emission {
        terms: terms + 1,
        ..e
    }
}

pub fn next_argument(counts: &mut [u8], e: Emission) -> Emission
    requires { e.terms < length counts.old }
    ensures { (a x : ℕ) (out : List ℕ) (brackets : List Behind) → Turns out counts.old brackets e out counts.new brackets result (emit_cell (cell roles.Next a x)) }
{
    let terms = e.terms;
    if terms == 0 {
        return shut(counts, e);
    }
    let count = counts[terms - 1];
    if count < MANY {
        counts[terms - 1] = count + 1;
    }
    e
}

// A semicolon.
pub fn disjunction(out: &mut [u8], e: Emission) -> Emission
    requires { e.at ≤ length out.old }
    ensures { (a x : ℕ) (counts : List ℕ) (brackets : List Behind) → Turns out.old counts brackets e out.new counts brackets result (emit_cell (cell roles.Or a x)) }
{
    let inner = whole(out, e);
    Emission {
        behind: Behind {
            semicolon: true,
            ..inner.behind
        },
        ..inner
    }
}

// What stands behind a closing bracket around a goal is kept until its opening one.
pub fn close_bracket(brackets: &mut [Behind], e: Emission) -> Emission
    requires { e.goals < length brackets.old }
    ensures { (a x : ℕ) (out counts : List ℕ) → Turns out counts brackets.old e out counts brackets.new result (emit_cell (cell roles.Close a x)) }
{
    let goals = e.goals;
    brackets[goals] = e.behind;
    Emission {
        goals: goals + 1,
        behind: Behind::NOTHING,
        ..e
    }
}

fn reopened(brackets: &[Behind], e: Emission) -> Emission
    requires { e.goals ≤ length brackets.now }
    ensures { (out counts : List ℕ) → Turns out counts brackets.now e out counts brackets.now result reopened_of }
{
    if e.goals == 0 {
        return Emission {
            behind: Behind::NOTHING,
            ..e
        };
    }
    let last = e.goals - 1;
    Emission {
        goals: last,
        behind: brackets[last],
        ..e
    }
}

pub fn open_bracket(out: &mut [u8], brackets: &[Behind], e: Emission) -> Emission
    requires at_in_bounds { e.at ≤ length out.old }
    requires goals_in_bounds { e.goals ≤ length brackets.now }
    ensures { (a x : ℕ) (counts : List ℕ) → Turns out.old counts brackets.now e out.new counts brackets.now result (emit_cell (cell roles.Open a x)) }
{
    let inner = whole(out, e);
    let outer = reopened(brackets, inner);
    primary(out, outer)
}

// The end of a clause with so many variables, and of a fact.
pub fn end_clause(e: Emission, v: u8) -> Emission
    requires { e.clauses + 1 < 2 ^ 64 }
    ensures { (a : ℕ) (out counts : List ℕ) (brackets : List Behind) → Turns out counts brackets e out counts brackets result (emit_cell (cell roles.Rule a v)) }
{
    Emission {
        clauses: e.clauses + 1,
        variables: v,
        ..e
    }
}

pub fn end_fact(out: &mut [u8], e: Emission, v: u8) -> Emission
    requires at_in_bounds { e.at ≤ length out.old }
    requires clauses_bound { e.clauses + 1 < 2 ^ 64 }
    ensures { (a : ℕ) (counts : List ℕ) (brackets : List Behind) → Turns out.old counts brackets e out.new counts brackets result (emit_cell (cell roles.Fact a v)) }
{
    let next = push(out, e.at, TRUTH);
    end_clause(placed(e, next), v)
}
