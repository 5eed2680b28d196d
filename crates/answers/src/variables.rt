// The variables of a query by rising number.
ghost use Rattle.std.specs.Prelude.{◌≡◌, ◌*◌, ◌≤◌, length};
ghost use Rattle.records.specs.Format.Syntax.{Goal};
ghost use Rattle.records.specs.Ends.Steps.{On, met, along};
ghost use Rattle.records.specs.Ends.Traversal.{traverse};
ghost use Rattle.records.specs.Gate.Gate.{Accepted, tree, read_query};
ghost use Rattle.records.specs.Gate.Sets.{marked};
ghost use Rattle.records.specs.Writing.Patched.{Put};
ghost use Rattle.answers.specs.Form.Answer.{query_variables};
ghost use Rattle.answers.specs.Writing.Marked.{marked_below};

use crate::begin::QUERY_GOAL;
use records::sets::{MARK_WORDS, VariableMarks};
use records::traverse::{Cursor, NodeStep, next_node, variables_top};

// Marks the variables that a traversal meets.
fn mark_met(s: &[u8], start: Cursor, marks: &mut VariableMarks)
    requires { On (traverse s.now start.pos start.terms start.goals) }
    ensures { marks.new.words ≡ along marked marks.old.words (met (traverse s.now start.pos start.terms start.goals)) }
{
    let mut c = start;
    while let Some(step) = next_node(s, c) {
        match step {
            NodeStep::Variable(v, next) => {
                marks.mark(v);
                c = next;
            }
            NodeStep::Other(next) => c = next,
        }
    }
}

// Lists the marked variables below `top` by rising number, and gives how many there are.
fn list_marked(marks: &VariableMarks, top: usize, table: &mut [usize]) -> usize
    requires top_bound { top ≤ 65536 }
    requires top_in_bounds { length (marked_below marks.now.words top) ≤ length table.old }
    ensures { Put table.old 0 (marked_below marks.now.words top) table.new result }
{
    let mut k = 0;
    for v in 0..top {
        if marks.is_marked(v) {
            table[k] = v;
            k += 1;
        }
    }
    k
}

// Lists the variables of an accepted query. A variable has three bytes.
pub fn list_variables(query: &[u8], table: &mut [usize]) -> usize
    requires accepted { Accepted (read_query query.now) }
    requires query_len_bound { length query.now ≤ 3 * length table.old }
    ensures { (q : Goal) → read_query query.now ≡ tree q → Put table.old 0 (query_variables q) table.new result }
{
    let goal = Cursor::goal(QUERY_GOAL);
    let mut marks = VariableMarks {
        words: [0; MARK_WORDS],
    };
    mark_met(query, goal, &mut marks);
    let found = variables_top(query, goal);
    list_marked(&marks, found.top, table)
}
