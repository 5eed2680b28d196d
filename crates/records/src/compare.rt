// Comparison of two parts by their bytes: equal bytes are equal trees.
ghost use Rattle.std.specs.Prelude.{◌≡◌};
ghost use Rattle.records.specs.Ends.Range.{cut, Inside};
ghost use Rattle.records.specs.Ends.Same.{same_bytes};

use crate::put::Range;

// Whether two ranges hold the same bytes.
pub fn same_range(s: &[u8], x: Range, u: &[u8], y: Range) -> bool
    requires inside { Inside x s.now }
    requires inside_2 { Inside y u.now }
    ensures { result ≡ same_bytes (cut s.now x) (cut u.now y) }
{
    s[x.from..x.to] == u[y.from..y.to]
}
