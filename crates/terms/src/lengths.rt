// The lengths of the classes' terms in bytes: size[r] for the representative r, counted up to 40,000, and 0 while it is not known: no term has
// length 0, and an Option would take twice the memory, which is fixed.
ghost use Rattle.std.specs.Prelude.{◌≡◌, ◌+◌, ◌≤◌, ◌<◌, min, length};
ghost use Rattle.terms.specs.Classes.Nodes.{Table};
ghost use Rattle.terms.specs.Classes.ClassState.{State};
ghost use Rattle.terms.specs.Classes.Lengths.{length_cap, Weighable, Weighed, Offered, Measuring, Blank, Checked};

use crate::nodes::{Classes, Node, NodeKind};

// A length that is not told exactly: more than any output has room for.
const LENGTH_CAP: usize = 40000;

// a + b, but at most LENGTH_CAP.
pub fn capped(a: usize, b: usize) -> usize
    requires { (a ≤ length_cap) × (b ≤ length_cap) }
    ensures { result ≡ min length_cap (a + b) }
{
    LENGTH_CAP.min(a + b)
}

// The length of r's term from the lengths of its children's classes, once these are known. No `for`: the table tells where the next child is.
fn weigh(classes: Classes<'_>, r: usize) -> Option<usize>
    requires weighable { Weighable classes.table.now classes.rep.now classes.size.now }
    requires r_in_bounds { r < length classes.table.now }
    ensures { Weighed classes.entry.table.now classes.entry.rep.now classes.entry.size.now r result }
{
    let Classes { table, rep, size } = classes;
    let NodeKind::Symbol(_) = table[r].kind else {
        return Some(3);
    };
    let end = table[r].next;
    let mut w = 4;
    let mut p = r + 1;
    while p < end {
        let c = rep[p];
        let k = size[c];
        if k == 0 {
            return None;
        }
        w = capped(w, k);
        p = table[p].next;
    }
    Some(w)
}

// The length to store at node i, if there is one.
fn offer(classes: Classes<'_>, i: usize) -> Option<usize>
    requires weighable { Weighable classes.table.now classes.rep.now classes.size.now }
    requires i_in_bounds { i < length classes.table.now }
    ensures { Offered classes.entry.table.now classes.entry.rep.now classes.entry.size.now i result }
{
    if classes.rep[i] != i {
        return None;
    }
    if classes.size[i] != 0 {
        return None;
    }
    weigh(classes, i)
}

// Measure the classes: size is 0 everywhere at entry. No `for`: a length begins again at the first node.
pub fn measure(table: &[Node], rep: &[usize], size: &mut [usize], s: usize, t: usize)
    requires table { Table table.now }
    requires state { State table.now s t rep.now }
    requires blank { Blank table.now size.old }
    ensures { Measuring table.now rep.now size.new (length table.now) }
{
    let mut i = 0;
    while i < table.len() {
        match offer(Classes { table, rep, size }, i) {
            None => i += 1,
            Some(w) => {
                size[i] = w;
                i = 0;
            }
        }
    }
}

// Whether every class is measured.
pub fn complete(classes: Classes<'_>) -> bool
    requires { (length classes.rep.now ≡ length classes.table.now) × (length classes.size.now ≡ length classes.table.now) }
    ensures { Checked classes.entry.table.now classes.entry.rep.now classes.entry.size.now result }
{
    let Classes { table, rep, size } = classes;
    for i in 0..table.len() {
        if rep[i] == i && size[i] == 0 {
            return false;
        }
    }
    true
}
