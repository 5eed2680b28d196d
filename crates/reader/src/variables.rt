// The variables of each clause, numbered by first appearance: a table of numbers, by the token's place.
ghost use Rattle.std.specs.Prelude.{◌≡◌, ◌≤◌, length};
ghost use Rattle.records.specs.Ends.Range.{cut, Inside};
ghost use Rattle.reader.specs.Form.Meaning.{lone, place, number_in};
ghost use Rattle.reader.specs.Items.Variables.{range_words, RangesInside, first_ranges, NumberedItem, NumberedItems};

use crate::roles::Role;
use records::compare::same_range;
use records::put::Range;
use text::lexer::next_token;

// How many variables a clause may have.
const MOST_VARIABLES: usize = 64;

// The variable that is new each time.
const LONE: &[u8] = b"_";

// The number of an item, and how many variables are met behind it.
#[derive(Clone, Copy)]
pub struct Numbered {
    pub number: u8,
    pub met: usize,
}

// Whether a word is a lone underscore, which is new each time.
fn is_lone(s: &[u8], w: Range) -> bool
    requires { Inside w s.now }
    ensures { result ≡ lone (cut s.now w) }
{
    &s[w.from..w.to] == LONE
}

// The place of a word among those at some ranges; how many these are where it is not among them.
fn place_among(s: &[u8], w: Range, met: &[Range]) -> usize
    requires inside { Inside w s.now }
    requires ranges_inside { RangesInside s.now met.now }
    ensures { result ≡ place (cut s.now w) (range_words s.now met.now) }
{
    for (j, range) in met.iter().enumerate() {
        if same_range(s, w, s, *range) {
            return j;
        }
    }
    met.len()
}

// The number of a variable behind those at some ranges.
fn variable_number(s: &[u8], w: Range, met: &[Range]) -> usize
    requires inside { Inside w s.now }
    requires ranges_inside { RangesInside s.now met.now }
    ensures { result ≡ number_in (range_words s.now met.now) (cut s.now w) }
{
    if is_lone(s, w) {
        return met.len();
    }
    place_among(s, w, met)
}

// One item behind n variables: a new variable's range is stored, where there is room for it.
fn number_item(s: &[u8], role: Role, w: Range, ranges: &mut [Range], n: usize) -> Numbered
    requires inside { Inside w s.now }
    requires n_bound { (n ≤ 64) × (64 ≤ length ranges.old) }
    requires ranges_inside { RangesInside s.now (first_ranges ranges.old n) }
    ensures { NumberedItem s.now role w ranges.old n ranges.new result }
{
    if role.is_variable() {
        let x = variable_number(s, w, &ranges[..n]);
        if x < n {
            return Numbered {
                // It fits by proof; `try_from` would add a case that never comes.
                number: x as u8,
                met: n,
            };
        }
        if n < MOST_VARIABLES {
            ranges[n] = w;
        }
        return Numbered {
            // It fits by proof; `try_from` would add a case that never comes.
            number: n as u8,
            met: n + 1,
        };
    }
    if role.is_end() {
        return Numbered {
            // It fits by proof; `try_from` would add a case that never comes.
            number: n as u8,
            met: 0,
        };
    }
    Numbered { number: 0, met: n }
}

// The number of each variable and the count of each clause, by the roles of the tokens; whether a clause has a 65th.
pub fn number_variables(s: &[u8], roles: &[Role], variables: &mut [u8]) -> bool
    requires { length roles.now ≤ length variables.old }
    ensures { NumberedItems s.now roles.now (length roles.now) variables.old variables.new result }
{
    let mut ranges = [Range { from: 0, to: 0 }; MOST_VARIABLES];
    let mut at = 0;
    let mut met = 0;
    for (k, role) in roles.iter().enumerate() {
        let t = next_token(s, at);
        let n = number_item(s, *role, t.word, &mut ranges, met);
        met = n.met;
        if MOST_VARIABLES < met {
            return true;
        }
        variables[k] = n.number;
        at = t.next;
    }
    false
}
