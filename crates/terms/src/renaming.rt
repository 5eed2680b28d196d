// What a traversal goes over, with its variables renamed.
ghost use Rattle.std.specs.Prelude.{◌+◌, ◌≤◌, length};
ghost use Rattle.records.specs.Writing.Patched.{Put};
ghost use Rattle.records.specs.Ends.Traversal.{traverse};
ghost use Rattle.records.specs.Ends.Steps.{On};
ghost use Rattle.terms.specs.Body.Renaming.{renamed};

use crate::substitute::{Numbering, Replacing, put_nodes};
use records::traverse::Cursor;

// Variable i becomes m + i; the output has room for it.
pub fn write_renamed(out: &mut [u8], first: usize, s: &[u8], start: Cursor, m: usize) -> usize
    requires on { On (traverse s.now start.pos start.terms start.goals) }
    requires m_bound { m ≤ 65536 }
    requires goals_in_bounds { first + length (renamed m (traverse s.now start.pos start.terms start.goals)) ≤ length out.old }
    ensures { Put out.old first (renamed m (traverse s.now start.pos start.terms start.goals)) out.new result }
{
    let by = Replacing::Numbered(Numbering {
        event: s,
        table: &[0],
        next: m,
    });
    match put_nodes(by, s, start, &mut out[first..]) {
        Some(n) => first + n,
        None => first,
    }
}
