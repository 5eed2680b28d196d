// The trie of names, over bytes, in a table of nodes. A node's children are a list, newest first: names have bytes of 63 kinds, so that no
// text makes a look cost more than 63 links a byte.
ghost use Rattle.std.specs.Prelude.{◌≡◌, ◌+◌, ◌<◌, ◌≤◌, length, get_or, replicate, MatchOption};
ghost use Rattle.reader.specs.Names.Trie.{links, marks, Filled, Sought};
ghost use Rattle.reader.specs.Names.NewNode.{ChildMade, NodeMade};
ghost use Rattle.reader.specs.Names.Holds.{NameGiven};

// A node's newest child, the next older child of its parent, one more than the number of the name that ends at it, and the byte that leads to it. 0 is no child,
// no sibling and no name; node 0 is the root. With an Option in place of each 0 a node would have 14 bytes and not 8, and the stack holds 65,536 of them.
#[derive(Clone, Copy)]
pub struct TrieNode {
    pub child: u16,
    pub sibling: u16,
    pub number: u16,
    pub letter: u8,
}

impl TrieNode {
    pub const EMPTY: TrieNode = TrieNode {
        child: 0,
        sibling: 0,
        number: 0,
        letter: 0,
    };
}

// The root, and a node for each byte of the longest text.
pub const NODES: usize = 65536;

// A table of nodes, how many of them are used, and how many names end at one.
#[derive(Drop)]
pub struct Trie {
    pub nodes: [TrieNode; NODES],
    pub used: usize,
    pub names: usize,
    pub ghost filled: { Filled (links nodes) used },
}

impl Trie {
    // The root alone.
    pub fn start() -> Self
        ensures { (result.nodes ≡ replicate 65536 TrieNode.EMPTY) × (result.used ≡ 1) × (result.names ≡ 0) }
    {
        Trie {
            nodes: [TrieNode::EMPTY; NODES],
            used: 1,
            names: 0,
        }
    }

    // The child of node p for the byte b.
    fn child_of(&self, p: usize, b: u8) -> Option<usize>
        requires { p < 65536 }
        ensures { MatchOption result (Sought (links self.now.nodes) b (get_or (links self.now.nodes).child p 0) 0) (λ m. (0 < m) × Sought (links self.now.nodes) b (get_or (links self.now.nodes).child p 0) m) }
    {
        let mut m = usize::from(self.nodes[p].child);
        while m != 0 {
            let node = self.nodes[m];
            if node.letter == b {
                return Some(m);
            }
            m = usize::from(node.sibling);
        }
        None
    }

    // The child of node p for the byte b; a new one where there is none.
    fn make_child(&mut self, p: usize, b: u8) -> usize
        requires p_lt_used { (p < self.old.used) × (self.old.used < 65536) }
        ensures made { ChildMade (links self.old.nodes) self.old.used p b (links self.new.nodes) self.new.used result }
        ensures numbers { (marks self.new.nodes ≡ marks self.old.nodes) × (self.new.names ≡ self.old.names) }
    {
        if let Some(node) = self.child_of(p, b) {
            return node;
        }
        let new = self.used;
        let parent = self.nodes[p];
        self.nodes[new] = TrieNode {
            sibling: parent.child,
            letter: b,
            ..self.nodes[new]
        };
        self.nodes[p] = TrieNode {
            // It fits by proof; `try_from` would add a case that never comes.
            child: new as u16,
            ..parent
        };
        self.used = new + 1;
        new
    }

    // The node of a word, with the nodes that were missing.
    fn node_of(&mut self, word: &[u8]) -> usize
        requires word_fits { self.old.used + length word.now ≤ 65536 }
        ensures made { NodeMade (links self.old.nodes) self.old.used word.now (links self.new.nodes) self.new.used result }
        ensures numbers { (marks self.new.nodes ≡ marks self.old.nodes) × (self.new.names ≡ self.old.names) }
    {
        let mut node = 0;
        for b in word {
            node = self.make_child(node, *b);
        }
        node
    }

    // The number of a name: its place among the names so far, at whose end it stands from now on if it is new. The empty word is no name.
    pub fn name_number(&mut self, word: &[u8]) -> usize
        requires { (self.old.used + length word.now ≤ 65536) × (self.old.names + 1 ≤ 65535) }
        ensures { NameGiven (links self.old.nodes) (marks self.old.nodes) self.old.used self.old.names word.now (links self.new.nodes) (marks self.new.nodes) self.new.used self.new.names result }
    {
        let node = self.node_of(word);
        let mark = self.nodes[node].number;
        if mark != 0 {
            return usize::from(mark - 1);
        }
        let number = self.names;
        // It fits by proof; `try_from` would add a case that never comes.
        self.nodes[node].number = (number + 1) as u16;
        self.names = number + 1;
        number
    }
}
