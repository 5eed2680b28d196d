// The names of a text, numbered by first appearance: a table of numbers, by the token's place, and the list of the names, each after its two-byte length.
ghost use Rattle.std.specs.Prelude.{◌≡◌, true, cond, [], ◌+◌, ◌-◌, ◌*◌, ◌≤◌, length};
ghost use Rattle.records.specs.Ends.Range.{cut, Inside};
ghost use Rattle.records.specs.Writing.Patched.{Put};
ghost use Rattle.reader.specs.Items.Roles.{name_role};
ghost use Rattle.reader.specs.Names.Naming.{name_bytes, naming, entry_of, NameEntered, NamedItems};
ghost use Rattle.reader.specs.Names.Trie.{links, marks};

use crate::roles::Role;
use crate::trie::Trie;
use records::put::{Range, put_range, put_word};
use text::lexer::next_token;

// The number of an item's name, and the bytes of the list behind it.
#[derive(Clone, Copy)]
pub struct Entry {
    pub number: u16,
    pub listed: usize,
}

// A name in the list, where it is new.
fn list_name(s: &[u8], w: Range, list: &mut [u8], at: usize, new: bool) -> usize
    requires inside { Inside w s.now }
    requires from_in_bounds { at + (2 + (w.to - w.from)) ≤ length list.old }
    ensures { Put list.old at (cond new (name_bytes (cut s.now w)) []) list.new result }
{
    if new {
        let next = put_word(list, at, w.to - w.from);
        return put_range(list, next, s, w);
    }
    at
}

// The number of a name, which goes to the end of the list where it is new.
fn enter_name(s: &[u8], w: Range, trie: &mut Trie, list: &mut [u8], listed: usize) -> Entry
    requires inside { Inside w s.now }
    requires from_bound { (trie.old.used + (w.to - w.from) ≤ 65536) × (trie.old.names + 1 ≤ 65535) × (listed + (2 + (w.to - w.from)) ≤ length list.old) }
    ensures { NameEntered true s.now w (links trie.old.nodes) (marks trie.old.nodes) list.old (naming trie.old listed) (links trie.new.nodes) (marks trie.new.nodes) list.new (entry_of trie.new result) }
{
    let before = trie.names;
    let number = trie.name_number(&s[w.from..w.to]);
    let new = trie.names != before;
    let listed = list_name(s, w, list, listed, new);
    Entry {
        // It fits by proof; `try_from` would add a case that never comes.
        number: number as u16,
        listed,
    }
}

// One item: 0 stands for the number of what takes no name.
fn enter_item(
    s: &[u8],
    role: Role,
    w: Range,
    trie: &mut Trie,
    list: &mut [u8],
    listed: usize,
) -> Entry
    requires inside { Inside w s.now }
    requires from_bound { (trie.old.used + (w.to - w.from) ≤ 65536) × (trie.old.names + 1 ≤ 65535) × (listed + (2 + (w.to - w.from)) ≤ length list.old) }
    ensures { NameEntered (name_role role) s.now w (links trie.old.nodes) (marks trie.old.nodes) list.old (naming trie.old listed) (links trie.new.nodes) (marks trie.new.nodes) list.new (entry_of trie.new result) }
{
    if role.takes_name() {
        return enter_name(s, w, trie, list, listed);
    }
    Entry { number: 0, listed }
}

// All items, by the table of their roles, behind the names that the trie and the list hold. Gives the bytes of the list there are then.
pub fn number_names(
    s: &[u8],
    roles: &[Role],
    numbers: &mut [u16],
    trie: &mut Trie,
    list: &mut [u8],
    before: usize,
) -> usize
    requires count_in_bounds { (length roles.now ≤ length s.now) × (length roles.now ≤ length numbers.old) }
    requires s_bound { (trie.old.used + length s.now ≤ 65536) × (trie.old.names + length s.now ≤ 65535) × (before + 3 * length s.now ≤ length list.old) }
    ensures { NamedItems s.now roles.now (length roles.now) numbers.old (links trie.old.nodes) (marks trie.old.nodes) list.old (naming trie.old before) numbers.new (links trie.new.nodes) (marks trie.new.nodes) list.new (naming trie.new result) }
{
    let mut listed = before;
    let mut at = 0;
    for (k, role) in roles.iter().enumerate() {
        let t = next_token(s, at);
        let e = enter_item(s, *role, t.word, trie, list, listed);
        numbers[k] = e.number;
        listed = e.listed;
        at = t.next;
    }
    listed
}
