// Classes of nodes: rep[i] is the representative of node i's class. Representatives and sizes are tables of their own beside the nodes, since they are
// changed while the nodes are only read.
ghost use Rattle.std.specs.Prelude.{◌≡◌, ◌<◌, length};
ghost use Rattle.terms.specs.Classes.Nodes.{IsSymbol, Table};
ghost use Rattle.terms.specs.Classes.ClassState.{
  State,
  Relabelled,
  NoneBelow,
  KeptBelow,
  Preferred,
  Unitable,
  United,
  Comparable,
  NodesCompared,
  Visited,
  Ended,
  FirstOfVariable,
  Firsts,
};

use crate::nodes::{Node, NodeKind};

#[derive(Clone, Copy)]
pub enum Comparison {
    Same,
    Clash,
    Differ(usize, usize),
}

// Where two classes have become one, no node before the one that is told has ceased to agree with its representative.
#[derive(Clone, Copy)]
pub enum Turn {
    Fine,
    Joined(usize),
    Stuck,
}

// Put class b into class a.
fn relabel(rep: &mut [usize], a: usize, b: usize)
    ensures { Relabelled a b rep.old rep.new }
{
    for r in rep.iter_mut() {
        if *r == b {
            *r = a;
        }
    }
}

// The first node of class b if a symbol represents it, else the end of the table: nodes of variables have nothing to agree in.
fn first_of_class(table: &[Node], rep: &[usize], b: usize) -> usize
    requires { b < length table.now }
    ensures { IsSymbol table.now b → NoneBelow rep.now b result }
{
    let NodeKind::Symbol(_) = table[b].kind else {
        return rep.len();
    };
    for (i, r) in rep.iter().enumerate() {
        if *r == b {
            return i;
        }
    }
    rep.len()
}

// Put class b into class a, and tell the first symbol that may have another representative for it, or any node before that.
fn put_class(table: &[Node], rep: &mut [usize], a: usize, b: usize) -> usize
    requires { b < length table.now }
    ensures { Relabelled a b rep.old rep.new × KeptBelow table.now result rep.old rep.new }
{
    let first = first_of_class(table, rep, b);
    relabel(rep, a, b);
    first
}

// Whether a is to represent the class of both: a symbol before a variable, and of variables the lower.
fn preferred(table: &[Node], a: usize, b: usize) -> bool
    requires { (a < length table.now) × (b < length table.now) }
    ensures { Preferred table.now a b result }
{
    match (table[a].kind, table[b].kind) {
        (NodeKind::Symbol(_), _) => true,
        (NodeKind::Variable, NodeKind::Symbol(_)) => false,
        (NodeKind::Variable, NodeKind::Variable) => table[a].number <= table[b].number,
    }
}

// Make one class of the classes of p and q, and tell where symbols with another representative begin.
fn unite(table: &[Node], rep: &mut [usize], p: usize, q: usize) -> usize
    requires { Unitable table.now rep.old p q }
    ensures { United table.now p q rep.old rep.new × KeptBelow table.now result rep.old rep.new }
{
    let a = rep[p];
    let b = rep[q];
    if preferred(table, a, b) {
        put_class(table, rep, a, b)
    } else {
        put_class(table, rep, b, a)
    }
}

// The symbols i and r: their first children that are not in one class. No `for`: the table tells where the next child is.
fn compare(table: &[Node], rep: &[usize], i: usize, r: usize) -> Comparison
    requires { Comparable table.now rep.now i r }
    ensures { NodesCompared table.now rep.now i r result }
{
    if table[i].number != table[r].number {
        return Comparison::Clash;
    }
    let end = table[i].next;
    let stop = table[r].next;
    let mut p = i + 1;
    let mut q = r + 1;
    while p < end {
        if q >= stop {
            return Comparison::Clash;
        }
        if rep[p] != rep[q] {
            return Comparison::Differ(p, q);
        }
        p = table[p].next;
        q = table[q].next;
    }
    if q < stop {
        return Comparison::Clash;
    }
    Comparison::Same
}

// One turn at node i. The terms at s and t are to be made equal.
fn visit(table: &[Node], rep: &mut [usize], i: usize, s: usize, t: usize) -> Turn
    requires table { Table table.now }
    requires state { State table.now s t rep.old }
    requires i_in_bounds { i < length table.now }
    ensures { Visited table.now s t i rep.old rep.new result }
{
    let NodeKind::Symbol(_) = table[i].kind else {
        return Turn::Fine;
    };
    let r = rep[i];
    match compare(table, rep, i, r) {
        Comparison::Clash => Turn::Stuck,
        Comparison::Same => Turn::Fine,
        Comparison::Differ(p, q) => Turn::Joined(unite(table, rep, p, q)),
    }
}

// Close the classes: false where no substitution makes the terms at s and t equal. No `for`: a join may go back, to the first symbol
// that may have another representative.
pub fn close(table: &[Node], rep: &mut [usize], s: usize, t: usize) -> bool
    requires table { Table table.now }
    requires state { State table.now s t rep.old }
    ensures { Ended table.now s t rep.new result }
{
    let mut i = 0;
    while i < table.len() {
        match visit(table, rep, i, s, t) {
            Turn::Stuck => return false,
            Turn::Fine => i += 1,
            Turn::Joined(first) => i = i.min(first),
        }
    }
    true
}

// The first node of node i's variable; i itself where it is no variable.
fn first(table: &[Node], i: usize) -> usize
    requires { i < length table.now }
    ensures { FirstOfVariable table.now i result }
{
    let NodeKind::Variable = table[i].kind else {
        return i;
    };
    for (j, node) in table[..i].iter().enumerate() {
        if node.number == table[i].number && node.kind == NodeKind::Variable {
            return j;
        }
    }
    i
}

// The nodes of one variable are one class, represented by the first of them.
fn separate(table: &[Node], rep: &mut [usize])
    requires { length rep.old ≡ length table.now }
    ensures { Firsts table.now rep.new (length table.now) }
{
    for (i, r) in rep.iter_mut().enumerate() {
        *r = first(table, i);
    }
}

// The first classes, with s and t in one.
pub fn begin(table: &[Node], rep: &mut [usize], s: usize, t: usize)
    requires { (length rep.old ≡ length table.now) × (s < length table.now) × (t < length table.now) }
    ensures { State table.now s t rep.new }
{
    separate(table, rep);
    if rep[s] != rep[t] {
        unite(table, rep, s, t);
    }
}
