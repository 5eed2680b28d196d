// The nodes of terms as the unifier's tables hold them, in the order of the terms' bytes: the children of node i are i + 1, the node behind the
// subtree of i + 1, .. below the node behind the subtree of i.

// A symbol has its arity.
#[derive(Clone, Copy, PartialEq, Eq)]
pub enum NodeKind {
    Variable,
    Symbol(usize),
}

// What a node is, the number of its variable or symbol, and the first node behind its subtree.
#[derive(Clone, Copy)]
pub struct Node {
    pub kind: NodeKind,
    pub number: usize,
    pub next: usize,
}

// The classes of a table's nodes: `rep` has each node's representative, `size` the length of a representative's term.
// What changes `rep` or `size` takes the three apart, since the nodes are only lent there.
#[derive(Clone, Copy)]
pub struct Classes<'a> {
    pub table: &'a [Node],
    pub rep: &'a [usize],
    pub size: &'a [usize],
}

impl Node {
    // What stands in a table that nothing is laid in.
    pub const BLANK: Node = Node {
        kind: NodeKind::Variable,
        number: 0,
        next: 0,
    };
}
