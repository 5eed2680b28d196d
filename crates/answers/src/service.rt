// All answers of a query, one after another, as far as the steps and the output go.
ghost use Rattle.std.specs.Prelude.{List, ◌≡◌, ℕ, ◌+◌, ◌<◌, ◌^◌, length};
ghost use Rattle.records.specs.Format.Syntax.{Goal, Definition};
ghost use Rattle.records.specs.Gate.Door.{Trees};
ghost use Rattle.records.specs.Gate.Gate.{read_program, read_query};
ghost use Rattle.records.specs.Gate.Receipt.{receipt_of};
ghost use Rattle.records.specs.Gate.Reply.{gives, told, outcome_number};
ghost use Rattle.stepper.specs.Services.Desk.{layers};
ghost use Rattle.stepper.specs.Services.Services.{machine};
ghost use Rattle.answers.specs.Form.Answers.{answers};
ghost use Rattle.answers.specs.Form.NextExit.{exit_order};
ghost use Rattle.answers.specs.Form.Service.{begin_answer, answers_record, AnswersReplied};
ghost use Rattle.answers.specs.Writing.Listing.{first_listing, stopped_listing, answered_listing, AnswerTables, ListStands, Listed, Turned};

use crate::answer::put_answer;
use crate::begin::{BEGIN_MORE, put_begin};
use crate::variables::list_variables;
use records::door::{program_door, query_door};
use records::kinds::{RECORD_LIMIT, VALUE_LIMIT};
use records::places::{part_ends, places_by};
use records::questions::Refusal;
use std::ops::ControlFlow;
use stepper::run::{RunAim, RunAnswer, RunOrder, is_met, run_here};
use terms::pairs::{ListedPair, UNLISTED};
use terms::tables::MOST_PAIRS;

// A query has at most so many variables: each has three bytes.
const MOST_VARIABLES: usize = 10923;

// The walk that has the answers: of a query with these variables under a program, of so many steps at most.
#[derive(Clone, Copy)]
struct Walk<'a> {
    program: &'a [u8],
    variables: &'a [usize],
    steps: u32,
}

// Where the list of answers stands and goes on from: the bytes written, the steps made, and the length of the record of the event reached.
// There is no heap: the record is at the front of a buffer that is lent, so its length stands here.
#[derive(Clone, Copy)]
pub struct Listing {
    pub written: usize,
    pub taken: u32,
    pub length: usize,
}

// What the service tells: done, or the question that stopped the list; the bytes written, and the steps made.
#[derive(Clone, Copy)]
pub struct ListAnswer {
    pub outcome: Result<(), Refusal>,
    pub written: usize,
    pub taken: u32,
}

// Forward to the next exit with one ancestor, with no log.
fn exit_order() -> RunOrder
    ensures { result ≡ exit_order }
{
    RunOrder {
        aim: Some(RunAim {
            exit: true,
            ancestors: 1,
            ..RunAim::default()
        }),
        ..RunOrder::default()
    }
}

// The list where the walk stops before another exit.
fn stopped_listing(last: Listing, r: RunAnswer) -> ListAnswer
    requires { last.taken + r.taken < 2 ^ 32 }
    ensures { result ≡ stopped_listing last r }
{
    ListAnswer {
        outcome: r.outcome(),
        written: last.written,
        taken: last.taken + r.taken,
    }
}

// The list behind the answer at an exit, or ended by it where it is refused.
fn answered_listing(
    last: Listing,
    r: RunAnswer,
    answer: Result<usize, Refusal>,
) -> ControlFlow<ListAnswer, Listing>
    requires { (last.taken + r.taken < 2 ^ 32) × (last.written + (receipt_of answer).length < 2 ^ 64) }
    ensures { result ≡ answered_listing last r answer }
{
    let taken = last.taken + r.taken;
    match answer {
        Ok(size) => ControlFlow::Continue(Listing {
            written: last.written + size,
            taken,
            length: r.length,
        }),
        Err(refusal) => ControlFlow::Break(ListAnswer {
            outcome: Err(refusal),
            written: last.written,
            taken,
        }),
    }
}

// The next answer, if the walk comes to one: the run to the next exit, and the answer there.
fn next_answer(
    walk: Walk,
    last: Listing,
    here: &mut [u8],
    entries: &mut [ListedPair],
    value: &mut [u8],
    out: &mut [u8],
) -> ControlFlow<ListAnswer, Listing>
    requires by_index { (ds : List Definition) × (q : Goal) × (before : List ℕ) × ListStands walk.program.now ds q walk.variables.now walk.steps before last here.old out.old }
    requires answer_tables { AnswerTables here.old entries.old value.old }
    ensures { (ds : List Definition) (q : Goal) (before : List ℕ) → ListStands walk.entry.program.now ds q walk.entry.variables.now walk.entry.steps before last here.old out.old → Turned walk.entry.program.now ds q walk.entry.variables.now walk.entry.steps before last result here.new out.new }
{
    let left = walk.steps - last.taken;
    let len = last.length;
    let ends = part_ends(&here[..len]);
    let r = run_here(walk.program, here, len, ends, exit_order(), left);
    if !is_met(r.stop) {
        return ControlFlow::Break(stopped_listing(last, r));
    }
    let n = r.length;
    let parts = places_by(&here[..n], r.ends);
    let bets = parts.bets;
    let at = last.written;
    let answer = put_answer(
        &here[..n],
        bets.from,
        bets.count,
        entries,
        walk.variables,
        value,
        &mut out[at..],
    );
    answered_listing(last, r, answer)
}

// All answers from where the list stands.
fn list_answers(
    walk: Walk,
    first: Listing,
    here: &mut [u8],
    entries: &mut [ListedPair],
    value: &mut [u8],
    out: &mut [u8],
) -> ListAnswer
    requires by_index { (ds : List Definition) × (q : Goal) × (before : List ℕ) × ListStands walk.program.now ds q walk.variables.now walk.steps before first here.old out.old }
    requires answer_tables { AnswerTables here.old entries.old value.old }
    ensures { (ds : List Definition) (q : Goal) (before : List ℕ) → ListStands walk.entry.program.now ds q walk.entry.variables.now walk.entry.steps before first here.old out.old → Listed (answers (machine layers ds) q walk.entry.steps (length before)) before result out.new }
{
    let mut last = first;
    loop {
        match next_answer(walk, last, here, entries, value, out) {
            ControlFlow::Continue(next) => last = next,
            ControlFlow::Break(answer) => return answer,
        }
    }
}

// 1 to 4 of the program, 11 to 13 of the query, 5 of an output of `room` bytes, and 10 of the first event of 'Q, fail'.
fn answers_door(program: &[u8], query: &[u8], room: usize) -> Result<(), Refusal>
    ensures { result ≡ told (begin_answer (read_program program.now) (read_query query.now) room) }
{
    program_door(program)?;
    query_door(query)?;
    if room < RECORD_LIMIT {
        return Err(Refusal::Output);
    }
    if RECORD_LIMIT < query.len() + BEGIN_MORE {
        return Err(Refusal::Fits);
    }
    Ok(())
}

// The answers, with the table that they need.
fn listed_answers(walk: Walk, len: usize, here: &mut [u8], out: &mut [u8]) -> ListAnswer
    requires list_stands { (ds : List Definition) × (q : Goal) × ListStands walk.program.now ds q walk.variables.now walk.steps out.old (first_listing len) here.old out.old }
    requires here_len { length here.old ≡ 32768 }
    ensures { (ds : List Definition) (q : Goal) → ListStands walk.entry.program.now ds q walk.entry.variables.now walk.entry.steps out.old (first_listing len) here.old out.old → Listed (answers (machine layers ds) q walk.entry.steps (length out.old)) out.old result out.new }
{
    let mut entries: [ListedPair; MOST_PAIRS] = [UNLISTED; MOST_PAIRS];
    let mut value: [u8; VALUE_LIMIT] = [0; VALUE_LIMIT];
    let first = Listing {
        written: 0,
        taken: 0,
        length: len,
    };
    list_answers(walk, first, here, &mut entries, &mut value, out)
}

// The answers of a query that passes the door.
fn begin_answers(program: &[u8], query: &[u8], steps: u32, out: &mut [u8]) -> ListAnswer
    requires { (t : Trees (List Definition) Goal) × (begin_answer (read_program program.now) (read_query query.now) (length out.old) ≡ gives t) }
    ensures { (t : Trees (List Definition) Goal) → begin_answer (read_program program.now) (read_query query.now) (length out.old) ≡ gives t → Listed (answers (machine layers t.program) t.event steps (length out.old)) out.old result out.new }
{
    let mut here: [u8; RECORD_LIMIT] = [0; RECORD_LIMIT];
    let mut table: [usize; MOST_VARIABLES] = [0; MOST_VARIABLES];
    let len = put_begin(query, &mut here);
    let n = list_variables(query, &mut table);
    let walk = Walk {
        program,
        variables: &table[..n],
        steps,
    };
    listed_answers(walk, len, &mut here, out)
}

// The service, for every two records, every number of steps and every output.
pub fn answers(program: &[u8], query: &[u8], steps: u32, out: &mut [u8]) -> ListAnswer
    ensures { AnswersReplied (answers_record layers steps program.now query.now out.old) (outcome_number result.outcome) result.written result.taken out.new }
{
    match answers_door(program, query, out.len()) {
        Ok(()) => begin_answers(program, query, steps, out),
        Err(refusal) => ListAnswer {
            outcome: Err(refusal),
            written: 0,
            taken: 0,
        },
    }
}
