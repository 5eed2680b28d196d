// A clause's branch, written: an equation for each term of the head, then the goal, with the clause's variables numbered from a base on.
ghost use Rattle.std.specs.Prelude.{◌+◌, ◌≤◌, length};
ghost use Rattle.records.specs.Format.Encode.{goal_bytes};
ghost use Rattle.records.specs.Writing.Patched.{Put};
ghost use Rattle.records.specs.Ends.Traversal.{traverse};
ghost use Rattle.records.specs.Ends.Steps.{On};
ghost use Rattle.canonical.specs.Form.Canonical.{branch};
ghost use Rattle.terms.specs.Body.Renaming.{renamed};
ghost use Rattle.canonical.specs.Sorting.Entries.{ClauseAt, clause_at};
ghost use Rattle.canonical.specs.Writing.Equation.{equation};

use records::ends::{position, term_end};
use records::heads::clause_head;
use records::kinds::{CONJ, EQUAL};
use records::put::put_part;
use records::traverse::Cursor;
use terms::renaming::write_renamed;
use terms::substitute::write_variable;

// The equation of head variable x and the term at pos, behind the byte that joins it to what follows.
fn put_equation(out: &mut [u8], at: usize, s: &[u8], pos: usize, x: usize, base: usize) -> usize
    requires on { On (traverse s.now pos 1 0) }
    requires base_bound { base ≤ 65536 }
    requires pos_in_bounds { at + length (equation x (renamed base (traverse s.now pos 1 0))) ≤ length out.old }
    ensures { Put out.old at (equation x (renamed base (traverse s.now pos 1 0))) out.new result }
{
    let left_at = put_part(out, at, &[CONJ, EQUAL]);
    let right_at = write_variable(out, left_at, x);
    write_renamed(out, right_at, s, Cursor::term(pos), base)
}

// The branch of the clause at `place`. Record and place stay two arguments: the function is public, and a type with the clause in it would ask more.
pub fn put_branch(out: &mut [u8], first: usize, s: &[u8], place: usize, base: usize) -> usize
    requires clause_at { ClauseAt s.now place }
    requires base_bound { base ≤ 65536 }
    requires place_in_bounds { first + length (goal_bytes (branch base (clause_at s.now place))) ≤ length out.old }
    ensures { Put out.old first (goal_bytes (branch base (clause_at s.now place))) out.new result }
{
    let Some(signature) = clause_head(s, place) else {
        return first;
    };
    let mut at = first;
    let mut pos = place + 4;
    for x in 0..signature.arity {
        at = put_equation(out, at, s, pos, x, base);
        pos = position(term_end(s, pos));
    }
    write_renamed(out, at, s, Cursor::goal(pos), base)
}
