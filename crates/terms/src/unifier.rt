// The unifier of two values: found or not, and its length, before anything is written; then its bytes, a count and pairs that rise by variable.
ghost use Rattle.std.specs.Prelude.{◌<◌, length, IfSome};
ghost use Rattle.terms.specs.Unifier.ClassTerms.{Measured};
ghost use Rattle.terms.specs.Unifier.UnifierAnswer.{Classed, Tested, Least, Chosen, PairsLength, PairFits, PairPut, PairsFit, PairsPut, UnifierFits, UnifierPut, Decidable, Decides, Unifiable, Unifications};

use crate::lengths::capped;
use crate::load::{NodeCounts, lay};
use crate::nodes::{Classes, Node, NodeKind};
use crate::solve::solve;
use crate::write::write_term;
use records::put::put_word;

// Whether node i is a variable whose class has another term.
fn is_bound(classes: Classes<'_>, i: usize) -> bool
    requires classed { Classed classes.table.now classes.rep.now }
    requires i_in_bounds { i < length classes.table.now }
    ensures { Tested classes.entry.table.now classes.entry.rep.now i result }
{
    let own = classes.table[i];
    let chosen = classes.table[classes.rep[i]];
    match (own.kind, chosen.kind) {
        (NodeKind::Symbol(_), _) => false,
        (NodeKind::Variable, NodeKind::Symbol(_)) => true,
        (NodeKind::Variable, NodeKind::Variable) => chosen.number != own.number,
    }
}

// The better of best and i: the bound variable from lo on that is lower.
fn better(classes: Classes<'_>, lo: usize, best: Option<usize>, i: usize) -> Option<usize>
    requires classed { Classed classes.table.now classes.rep.now }
    requires i_in_bounds { i < length classes.table.now }
    requires best_in_bounds { IfSome best (λ k. k < length classes.table.now) }
    ensures { Chosen classes.entry.table.now classes.entry.rep.now lo best i result }
{
    if classes.table[i].number < lo {
        return best;
    }
    if !is_bound(classes, i) {
        return best;
    }
    match best {
        Some(k) if classes.table[k].number <= classes.table[i].number => best,
        _ => Some(i),
    }
}

// A node of the least bound variable from lo on.
fn least(classes: Classes<'_>, lo: usize) -> Option<usize>
    requires { Classed classes.table.now classes.rep.now }
    ensures { Least classes.entry.table.now classes.entry.rep.now lo (length classes.entry.table.now) result }
{
    let mut best = None;
    for i in 0..classes.table.len() {
        best = better(classes, lo, best, i);
    }
    best
}

// The length of the count and the pairs, up to 40,000.
fn unifier_length(classes: Classes<'_>) -> usize
    requires { Measured classes }
    ensures { PairsLength classes.entry.table.now classes.entry.rep.now result }
{
    let mut w = 2;
    let mut lo = 0;
    while let Some(i) = least(classes, lo) {
        w = capped(capped(w, 2), classes.size[classes.rep[i]]);
        lo = classes.table[i].number + 1;
    }
    w
}

// The pair of node i's variable and the term of its class.
fn put_pair(classes: Classes<'_>, out: &mut [u8], k: usize, i: usize) -> usize
    requires class_table { Measured classes }
    requires pair_fits { PairFits classes.table.now classes.rep.now classes.size.now out.old k i }
    ensures { PairPut classes.entry.table.now classes.entry.rep.now out.old k i out.new result }
{
    let v = classes.table[i].number;
    let r = classes.rep[i];
    let e = put_word(out, k, v);
    write_term(&classes, &mut out[e..], r);
    e + classes.size[r]
}

// The place after the pairs, and how many there are.
#[derive(Clone, Copy)]
pub struct PairsWritten {
    pub end: usize,
    pub count: usize,
}

// The pairs in the order of their variables.
fn put_pairs(classes: Classes<'_>, out: &mut [u8], at: usize) -> PairsWritten
    requires class_table { Measured classes }
    requires pairs_fit { PairsFit classes.table.now classes.rep.now out.old at }
    ensures { PairsPut classes.entry.table.now classes.entry.rep.now out.old at out.new result }
{
    let mut end = at;
    let mut count = 0;
    let mut lo = 0;
    while let Some(i) = least(classes, lo) {
        end = put_pair(classes, out, end, i);
        count += 1;
        lo = classes.table[i].number + 1;
    }
    PairsWritten { end, count }
}

// The count and the pairs of the unifier that the first `nodes` nodes of the table hold.
pub fn put_unifier(classes: Classes<'_>, nodes: usize, out: &mut [u8], at: usize) -> usize
    requires { UnifierFits classes.table.now classes.rep.now classes.size.now nodes out.old at }
    ensures { UnifierPut classes.entry.table.now classes.entry.rep.now classes.entry.size.now nodes out.old at out.new result }
{
    let held = Classes {
        table: &classes.table[..nodes],
        rep: &classes.rep[..nodes],
        size: &classes.size[..nodes],
    };
    let p = put_pairs(held, out, at + 2);
    put_word(out, at, p.count);
    p.end
}

// The number of nodes that the table of a unifier has, and the length of its count and pairs, up to 40,000.
#[derive(Clone, Copy)]
pub struct UnifierFound {
    pub nodes: usize,
    pub length: usize,
}

// The unifier of the terms at node 0 and at node `middle`, if there is one.
fn decide(
    table: &[Node],
    rep: &mut [usize],
    size: &mut [usize],
    middle: usize,
) -> Option<UnifierFound>
    requires { Decidable table.now rep.old size.old middle }
    ensures { Decides table.now middle rep.new size.new result }
{
    size.fill(0);
    if !solve(table, rep, size, 0, middle) {
        return None;
    }
    Some(UnifierFound {
        nodes: table.len(),
        length: unifier_length(Classes { table, rep, size }),
    })
}

// The unifier of two values, if there is one. The tables are lent; `put_unifier` reads them.
pub fn unify_values(
    a: &[u8],
    b: &[u8],
    table: &mut [Node],
    rep: &mut [usize],
    size: &mut [usize],
) -> Option<UnifierFound>
    requires { Unifiable a.now b.now table.old rep.old size.old }
    ensures { Unifications a.now b.now table.new rep.new size.new result }
{
    let NodeCounts { middle, count } = lay(a, b, table);
    decide(
        &table[..count],
        &mut rep[..count],
        &mut size[..count],
        middle,
    )
}
