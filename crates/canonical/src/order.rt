// Entries of clauses: listed, and sorted. Each is one number, which rises with predicate, arity and place.
ghost use Rattle.std.specs.Prelude.{◌≡◌, length, eqb};
ghost use Rattle.std.specs.List.Sorted.{IsNonDecreasing};
ghost use Rattle.canonical.specs.Sorting.Picking.{picked};
ghost use Rattle.canonical.specs.Sorting.Entries.{ClausesAt, clause_entries, entry_key, entry_place};

use records::ends::clause_end;
use records::heads::clause_head;

// An entry is (predicate * ARITIES + arity) * PLACES + place of its clause; all are below ENTRY_LIMIT. No struct: the public functions take any number.
const ARITIES: usize = 256;

pub const PLACES: usize = 65536;

const ENTRY_LIMIT: usize = 1099511627776;

// The place of an entry's clause.
pub(crate) fn place_of(entry: usize) -> usize
    ensures { result ≡ entry_place entry }
{
    entry % PLACES
}

pub(crate) fn same_predicate(x: usize, y: usize) -> bool
    ensures { result ≡ eqb (entry_key x) (entry_key y) }
{
    x / PLACES == y / PLACES
}

// The entries of the clauses of a record, as they stand.
pub fn list_clauses(s: &[u8], table: &mut [usize])
    requires { ClausesAt s.now (length table.old) }
    ensures { (a : ClausesAt s.now (length table.old)) → table.new ≡ clause_entries 5 a.clauses }
{
    let mut pos = 5;
    for entry in table.iter_mut() {
        let Some(signature) = clause_head(s, pos) else {
            return;
        };
        let Some(end) = clause_end(s, pos) else {
            return;
        };
        *entry = (signature.predicate * ARITIES + signature.arity) * PLACES + pos;
        pos = end;
    }
}

// Of numbers that rise, those below the limit, each once; the limit fills what is left.
fn pick_rising(sorted: &mut [usize])
    requires { IsNonDecreasing sorted.old }
    ensures { sorted.new ≡ picked (length sorted.old) 0 sorted.old }
{
    let mut low: usize = 0;
    let mut kept: usize = 0;
    for i in 0..sorted.len() {
        let entry = sorted[i];
        if entry < low || ENTRY_LIMIT <= entry {
            continue;
        }
        sorted[kept] = entry;
        kept += 1;
        low = entry + 1;
    }
    sorted[kept..].fill(ENTRY_LIMIT);
}

// The entries in their order, one least entry after the other. No `copy_from_slice`: it needs memmove, and the archive needs memcpy and memset alone.
pub fn sort(table: &[usize], sorted: &mut [usize])
    requires { length sorted.old ≡ length table.now }
    ensures { sorted.new ≡ picked (length table.now) 0 table.now }
{
    for (i, entry) in table.iter().enumerate() {
        sorted[i] = *entry;
    }
    sorted.sort_unstable();
    pick_rising(sorted);
}
