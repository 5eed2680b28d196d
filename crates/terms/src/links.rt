// Where a look for the pair of a variable begins. links[v] is above every entry of a table of pairs that binds v; of a variable beyond the links nothing
// is known, so that no links at all are links too. A look that begins there finds its pair at once where one pair at most binds a variable.
ghost use Rattle.std.specs.Prelude.{◌<◌, length};
ghost use Rattle.terms.specs.Values.Links.{PairsLinked, PairLinked, LookFrom};

use crate::pairs::ListedPair;
use records::heads::word_at;

// No entry from here on, of the first i, binds v.
pub fn look_from(links: &[u16], i: usize, v: usize) -> usize
    ensures { LookFrom links.now i v result }
{
    match links.get(v) {
        Some(&link) => usize::from(link).min(i),
        None => i,
    }
}

// The link of the variable at `at`, if one stands there and has a link, is n.
fn link_pair(event: &[u8], at: usize, n: u16, links: &mut [u16])
    ensures { PairLinked event.now at n links.old links.new }
{
    let Some(v) = word_at(event, at) else {
        return;
    };
    if v < links.len() {
        links[v] = n;
    }
}

// Links for all entries.
pub fn link_pairs(event: &[u8], entries: &[ListedPair], links: &mut [u16])
    requires { length entries.now < 65536 }
    ensures { PairsLinked event.now entries.now (length entries.now) links.new }
{
    for (j, pair) in entries.iter().enumerate() {
        // It fits by proof; `try_from` would add a case that never comes.
        link_pair(event, pair.place, (j + 1) as u16, links);
    }
}
