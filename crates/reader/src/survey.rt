// What is known of a text before anything is written for the caller: its tokens sorted, its names numbered and listed, its variables numbered, and the body of
// its record, all in buffers of their own.
ghost use Rattle.std.specs.Prelude.{◌&&◌, List, [], ◌≡◌, ℕ, ◌+◌, ◌*◌, ◌≤◌, leb, length};
ghost use Rattle.records.specs.Format.Encode.{each, clause_bytes, goal_bytes};
ghost use Rattle.records.specs.Gate.RecordRules.{every};
ghost use Rattle.text.specs.Grammar.{ClauseTree, GoalTree, Says, SaysGoal};
ghost use Rattle.reader.specs.Form.Meaning.{with_names, text_names, text_clauses, query_names, query_goal, query_variables, name_list};
ghost use Rattle.reader.specs.Form.Service.{arities_within, variables_within, goal_within};
ghost use Rattle.reader.specs.Items.Items.{Item};
ghost use Rattle.reader.specs.Items.Tabled.{Tabled};
ghost use Rattle.reader.specs.Items.Words.{names_of_items, name_numbers, Agrees};
ghost use Rattle.reader.specs.Names.Naming.{NamesSome};
ghost use Rattle.reader.specs.Survey.Survey.{Listed, Measured, Surveyed};

use crate::cells::emit_cells;
use crate::emit::whole;
use crate::names::number_names;
use crate::roles::Role;
use crate::sort::sort;
use crate::trie::Trie;
use crate::variables::number_variables;
use text::table::{Mode, State};

// Where the bytes of a record's body start in their buffer, and how many clauses there are.
#[derive(Clone, Copy)]
pub struct Body {
    pub at: usize,
    pub clauses: usize,
}

// How long the list of names is, and the body; there is none where an arity is over 16 or a clause has a 65th variable.
#[derive(Clone, Copy)]
pub struct Survey {
    pub listed: usize,
    pub body: Option<Body>,
}

// The longest text, and room for a table of its tokens.
pub const TEXT_LIMIT: usize = 65535;

pub const TABLE: usize = TEXT_LIMIT + 1;

// Room for the longest list of names: three bytes for each byte of a text.
pub const LIST: usize = 3 * TEXT_LIMIT;

// Room for the body of a record: a byte more than the longest goal has, so that one that is too long fills it.
pub const BODY: usize = 32766;

// The names of a text, numbered and listed. The length of the list is given.
fn list_names(text: &[u8], roles: &[Role], numbers: &mut [u16], list: &mut [u8]) -> usize
    requires text_len_bound { (length text.now ≤ 65535) × (3 * length text.now ≤ length list.old) }
    requires count_in_bounds { (length roles.now ≤ length text.now) × (length roles.now ≤ length numbers.old) }
    ensures { (length numbers.new ≡ length numbers.old) × (length list.new ≡ length list.old) × ((is : List Item) → Tabled text.now roles.now (length roles.now) is → NamesSome is → Listed is (with_names [] (names_of_items is)) (length roles.now) numbers.new list.new result) }
{
    let mut trie = Trie::start();
    number_names(text, roles, numbers, &mut trie, list, 0)
}

// The variables numbered and the body written, into the end of a buffer.
fn measure(text: &[u8], roles: &[Role], numbers: &[u16], scratch: &mut [u8]) -> Option<Body>
    requires { (length roles.now ≤ 65535) × (length roles.now ≤ length numbers.now) }
    ensures { (length scratch.new ≡ length scratch.old) × ((is : List Item) (ns : List (List ℕ)) → Tabled text.now roles.now (length roles.now) is → Agrees numbers.now (name_numbers ns is) (length roles.now) → Measured is ns scratch.new result) }
{
    let mut variables = [0u8; TABLE];
    if number_variables(text, roles, &mut variables) {
        return None;
    }
    let cells = emit_cells(scratch, roles, numbers, &variables);
    let body = whole(scratch, cells);
    if body.over {
        return None;
    }
    Some(Body {
        at: body.at,
        clauses: body.clauses,
    })
}

// A text of clauses.
pub fn survey_clauses(text: &[u8], list: &mut [u8], scratch: &mut [u8]) -> Survey
    requires text_len_bound { (length text.now ≤ 65535) × (3 * length text.now ≤ length list.old) }
    requires scratch_len { length scratch.old ≡ 32766 }
    ensures { (cs : List ClauseTree) → Says text.now cs → Surveyed (name_list (text_names cs)) (each clause_bytes (text_clauses cs)) (every arities_within (text_clauses cs) && every variables_within (text_clauses cs)) (length cs) list.new scratch.new result }
{
    let mut roles = [Role::Rule; TABLE];
    let mut numbers = [0u16; TABLE];
    let count = sort(text, State::start(Mode::Clause), &mut roles);
    let roles = &roles[..count];
    let listed = list_names(text, roles, &mut numbers, list);
    let body = measure(text, roles, &numbers, scratch);
    Survey { listed, body }
}

// The names of a text and then those of a query, numbered and listed together; the table has the query's. Apart from `list_names`: a list of one text or two would
// be no shorter than the two calls.
fn list_both(
    text: &[u8],
    roles: &[Role],
    query: &[u8],
    asked: &[Role],
    numbers: &mut [u16],
    list: &mut [u8],
) -> usize
    requires query_len_bound { (length text.now + length query.now ≤ 65535) × (3 * (length text.now + length query.now) ≤ length list.old) }
    requires count_in_bounds { (length roles.now ≤ length text.now) × (length roles.now ≤ length numbers.old) }
    requires n_in_bounds { (length asked.now ≤ length query.now) × (length asked.now ≤ length numbers.old) }
    ensures { (length numbers.new ≡ length numbers.old) × (length list.new ≡ length list.old) × ((is js : List Item) → Tabled text.now roles.now (length roles.now) is → NamesSome is → Tabled query.now asked.now (length asked.now) js → NamesSome js → Listed js (with_names (with_names [] (names_of_items is)) (names_of_items js)) (length asked.now) numbers.new list.new result) }
{
    let mut trie = Trie::start();
    let own = number_names(text, roles, numbers, &mut trie, list, 0);
    number_names(query, asked, numbers, &mut trie, list, own)
}

// A query behind a text of clauses. Apart from `survey_clauses`: what a text says and what a query says are other trees, so other theorems.
pub fn survey_query(text: &[u8], query: &[u8], list: &mut [u8], scratch: &mut [u8]) -> Survey
    requires query_len_bound { (length text.now + length query.now ≤ 65535) × (3 * (length text.now + length query.now) ≤ length list.old) }
    requires scratch_len { length scratch.old ≡ 32766 }
    ensures { (cs : List ClauseTree) (g : GoalTree) → Says text.now cs → SaysGoal query.now g → Surveyed (name_list (query_names cs g)) (goal_bytes (query_goal cs g)) (goal_within (query_goal cs g) && leb (length (query_variables g)) 64) 0 list.new scratch.new result }
{
    let mut roles = [Role::Rule; TABLE];
    let mut asked = [Role::Rule; TABLE];
    let mut numbers = [0u16; TABLE];
    let count = sort(text, State::start(Mode::Clause), &mut roles);
    let n = sort(query, State::start(Mode::Goal), &mut asked);
    let asked = &asked[..n];
    let listed = list_both(text, &roles[..count], query, asked, &mut numbers, list);
    let body = measure(query, asked, &numbers, scratch);
    Survey { listed, body }
}
