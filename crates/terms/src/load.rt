// Two terms in one table of nodes: their heads in the order of their bytes, and then, from the last node to the first, where each subtree ends.
ghost use Rattle.std.specs.Prelude.{◌≡◌, ◌+◌, ◌*◌, ◌≤◌, ◌<◌, length};
ghost use Rattle.records.specs.Format.Heads.{term_head_at};
ghost use Rattle.terms.specs.Classes.Laid.{head_of, IsValue, Loads, Behind, Linkable, Links, Layable, Lays};

use crate::nodes::{Node, NodeKind};
use records::heads::{TermHead, term_head};

// A node's kind and number, and how many bytes its head has.
#[derive(Clone, Copy)]
pub struct NodeHead {
    pub kind: NodeKind,
    pub number: usize,
    pub size: usize,
}

// The head of the node whose bytes start at p.
fn head_at(b: &[u8], p: usize) -> NodeHead
    ensures { result ≡ head_of (term_head_at b.now p) }
{
    match term_head(b, p) {
        Some(TermHead::Variable(v)) => NodeHead {
            kind: NodeKind::Variable,
            number: v,
            size: 3,
        },
        Some(TermHead::Symbol(f, k)) => NodeHead {
            kind: NodeKind::Symbol(k),
            number: f,
            size: 4,
        },
        None => NodeHead {
            kind: NodeKind::Variable,
            number: 0,
            size: 1,
        },
    }
}

// The kinds and numbers of a term's nodes, from node `start` on. No `for`: a head tells where the next is.
fn load(b: &[u8], table: &mut [Node], start: usize) -> usize
    requires value { IsValue b.now }
    requires b_bound { 3 * start + length b.now ≤ 3 * length table.old }
    ensures { Loads b.now start table.old table.new result }
{
    let mut i = start;
    let mut p = 0;
    while p < b.len() {
        let h = head_at(b, p);
        table[i] = Node {
            kind: h.kind,
            number: h.number,
            next: 0,
        };
        p += h.size;
        i += 1;
    }
    i
}

// The first node behind the subtree of node i, where that is known of all nodes behind i.
fn behind(table: &[Node], i: usize) -> usize
    requires { Linkable table.now (i + 1) }
    ensures { Behind table.now i result }
{
    let NodeKind::Symbol(arity) = table[i].kind else {
        return i + 1;
    };
    let mut p = i + 1;
    for _ in 0..arity {
        p = table[p].next;
    }
    p
}

// Where each subtree ends, from the last node to the first.
fn link(table: &mut [Node])
    requires { Linkable table.old (length table.old) }
    ensures { Links table.old table.new 0 }
{
    for i in (0..table.len()).rev() {
        table[i].next = behind(table, i);
    }
}

// Where the nodes of the second term start, and how many nodes there are.
#[derive(Clone, Copy)]
pub struct NodeCounts {
    pub middle: usize,
    pub count: usize,
}

// The nodes of two values, one after the other.
pub fn lay(a: &[u8], b: &[u8], table: &mut [Node]) -> NodeCounts
    requires { Layable a.now b.now table.old }
    ensures { Lays a.now b.now table.new result }
{
    let middle = load(a, table, 0);
    let count = load(b, table, middle);
    link(&mut table[..count]);
    NodeCounts { middle, count }
}
