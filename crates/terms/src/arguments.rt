// The arguments of an atom, by a table of where they stand: argument i from table[i] to table[i + 1]. It is filled once, so that an argument costs
// one read however often it is asked for.
ghost use Rattle.std.specs.Prelude.{◌≡◌, ◌+◌, ◌<◌, length, take};
ghost use Rattle.terms.specs.Body.Arguments.{ArgumentsAt, term_places, argument_range};

use records::ends::{position, term_end};
use records::put::Range;

// An argument list: where it stands, and how many terms it has.
#[derive(Clone, Copy)]
pub struct Arguments {
    pub at: usize,
    pub arity: usize,
}

// Where each argument starts, and then where the last one ends.
pub fn list_arguments(event: &[u8], args: Arguments, table: &mut [usize])
    requires arguments_at { ArgumentsAt event.now args }
    requires arity_in_bounds { args.arity < length table.old }
    ensures { (a : ArgumentsAt event.now args) → take (args.arity + 1) table.new ≡ term_places args.at a.terms }
{
    let k = args.arity;
    let mut pos = args.at;
    for i in 0..k {
        table[i] = pos;
        pos = position(term_end(event, pos));
    }
    table[k] = pos;
}

// The i-th of the arguments.
pub fn argument(table: &[usize], i: usize) -> Range
    requires { i + 1 < length table.now }
    ensures { result ≡ argument_range table.now i }
{
    Range {
        from: table[i],
        to: table[i + 1],
    }
}
