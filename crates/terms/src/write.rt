// The writer of a class's term: the tail of the output is lent on from the current place. Classes that hold each other's terms are written by
// functions that call each other; the lengths of the classes fall. `Classes` is lent here: a copy at each level would double the stack.
ghost use Rattle.std.specs.Prelude.{◌≤◌, ◌<◌, length};
ghost use Rattle.records.specs.Writing.Patched.{Put};
ghost use Rattle.terms.specs.Classes.Laid.{SmallKind};
ghost use Rattle.terms.specs.Unifier.ClassTerms.{head_bytes, Measured, ClassFits, ChildrenLeft, Wrote, Wrotes};

use crate::nodes::{Classes, NodeKind};
use records::kinds::{SYMBOL, VARIABLE};
use records::put::{put_byte, put_word};

// A node's own bytes.
fn put_head(out: &mut [u8], kind: NodeKind, number: usize) -> usize
    requires { SmallKind kind × (length (head_bytes kind number) ≤ length out.old) }
    ensures { Put out.old 0 (head_bytes kind number) out.new result }
{
    match kind {
        NodeKind::Variable => {
            let e = put_byte(out, 0, VARIABLE);
            put_word(out, e, number)
        }
        NodeKind::Symbol(arity) => {
            let e = put_byte(out, 0, SYMBOL);
            let e = put_word(out, e, number);
            // It fits by proof; `try_from` would add a case that never comes.
            put_byte(out, e, arity as u8)
        }
    }
}

// The term of the class that r represents.
#[cycle(write_args_write_term)]
pub fn write_term(classes: &Classes<'_>, out: &mut [u8], r: usize)
    requires class_table { Measured classes.now }
    requires class_fits { ClassFits classes.now.table.now classes.now.size.now out.old r }
    ensures { Wrote classes.now.table.now classes.now.rep.now classes.now.size.now r out.old out.new }
{
    let node = classes.table[r];
    let e = put_head(out, node.kind, node.number);
    let NodeKind::Symbol(_) = node.kind else {
        return;
    };
    let left = classes.size[r] - e;
    write_args(classes, &mut out[e..], r + 1, node.next, left);
}

// The terms of the classes of the children from p to end, which take `left` bytes.
#[cycle(write_args_write_term)]
fn write_args(classes: &Classes<'_>, out: &mut [u8], p: usize, end: usize, left: usize)
    requires class_table { Measured classes.now }
    requires children_left { ChildrenLeft classes.now.table.now classes.now.rep.now classes.now.size.now out.old p end left }
    ensures { Wrotes classes.now.table.now classes.now.rep.now p end left out.old out.new }
{
    if p >= end {
        return;
    }
    let c = classes.rep[p];
    let k = classes.size[c];
    write_term(classes, out, c);
    let q = classes.table[p].next;
    write_args(classes, &mut out[k..], q, end, left - k);
}
