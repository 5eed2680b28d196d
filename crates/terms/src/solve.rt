// Whether the terms at two nodes of a table have a unifier. Then the classes and their lengths give it.
ghost use Rattle.std.specs.Prelude.{◌≡◌, ◌<◌, length};
ghost use Rattle.terms.specs.Classes.Nodes.{Table};
ghost use Rattle.terms.specs.Classes.Lengths.{Blank, SolvedTables};

use crate::classes::{begin, close};
use crate::lengths::{complete, measure};
use crate::nodes::{Classes, Node};

pub fn solve(table: &[Node], rep: &mut [usize], size: &mut [usize], s: usize, t: usize) -> bool
    requires table { Table table.now }
    requires rep_len { (length rep.old ≡ length table.now) × (s < length table.now) × (t < length table.now) }
    requires blank { Blank table.now size.old }
    ensures { SolvedTables table.now s t rep.new size.new result }
{
    begin(table, rep, s, t);
    if !close(table, rep, s, t) {
        return false;
    }
    measure(table, rep, size, s, t);
    complete(Classes { table, rep, size })
}
