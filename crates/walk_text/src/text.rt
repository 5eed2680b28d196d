// The next page of the text that the walk program prints: a page is filled from the two records and from what is left of the text, refusals
// included. Nothing is required of either.
ghost use Rattle.std.specs.Prelude.{◌≡◌, List, ℕ, suc, ◌-◌, ◌≤◌};
ghost use Rattle.stepper.specs.Services.Services.{machine};
ghost use Rattle.stepper.specs.Services.Desk.{layers};
ghost use Rattle.records.specs.Gate.Question.{refusal_number};
ghost use Rattle.records.specs.Gate.Door.{BothPassed};
ghost use Rattle.walk_text.specs.Line.{stop_bytes};
ghost use Rattle.walk_text.specs.Text.{step_limit, rest_of_text, text};
ghost use Rattle.walk_text.specs.Rest.{done, lines_left, steps_made, PageOf, PageOrRefusal, Paged, walk_order};

use crate::line::{put_lines, put_stop};
use records::door::{door, program_door};
use records::kinds::RECORD_LIMIT;
use records::put::put_part;
use records::questions::{Refusal, outcome_number};
use stepper::first::first_event;
use stepper::run::{RunOrder, RunStop, run_from};

// The bytes of a page.
pub const PAGE: usize = 65536;

// A walk makes at most so many steps.
const STEP_LIMIT: usize = 100000;

// The numbers of a log of 960 marks: as many lines, of 68 bytes at most, fit a page with the first line, of 11, and the stop line, of 26.
const LOG: usize = 2880;

// Where a walk stands after `step` steps: at the event whose record has the first `length` bytes of `event`; the line of that event is printed.
#[derive(Clone, Copy)]
pub struct Stand {
    pub step: usize,
    pub length: usize,
    pub event: [u8; RECORD_LIMIT],
}

// What is left of a text: the whole of it, what follows the line of an event, or nothing.
#[derive(Clone, Copy)]
pub enum Rest {
    Start,
    Walking(Stand),
    Done,
}

impl Rest {
    // Whether nothing is left.
    pub fn is_done(&self) -> bool
        ensures { result ≡ done self.now }
    {
        matches!(self, Rest::Done)
    }
}

// How many bytes of a page are used, and what is left of the text after it.
#[derive(Clone, Copy)]
pub struct Page {
    pub used: usize,
    pub rest: Rest,
}

// The page that has the stop line alone.
fn stop_page(number: u8, page: &mut [u8; PAGE]) -> Page
    ensures { (program query : List ℕ) (most : ℕ) → PageOf program query (stop_bytes number) most page.old 0 result page.new }
{
    Page {
        used: put_stop(page, 0, number),
        rest: Rest::Done,
    }
}

// Forward, with no aim, and a log.
fn walk_order() -> RunOrder
    ensures { result ≡ walk_order }
{
    RunOrder {
        logged: true,
        ..RunOrder::default()
    }
}

// The page that follows the line of an accepted event, at which the walk stands after `first` steps, from a place on: the lines of a run's log, and the
// stop line where the walk ends.
fn walk_page(program: &[u8], from: &[u8], first: usize, at: usize, page: &mut [u8; PAGE]) -> Page
    requires both_passed { BothPassed program.now from.now }
    requires first_le_step_limit { first ≤ step_limit }
    requires at_bound { at ≤ 11 }
    ensures { (w : BothPassed program.now from.now) (query : List ℕ) → PageOf program.now query (rest_of_text (machine layers w.definitions) first w.event) (suc (step_limit - first)) page.old at result page.new }
{
    let mut log = [0; LOG];
    let mut event = [0; RECORD_LIMIT];
    // `as`, here and below: both numbers fit by proof, and `try_from` would add cases that never come
    let steps = (STEP_LIMIT - first) as u32;
    let end = run_from(program, from, walk_order(), steps, &mut log, &mut event);
    let taken = end.taken as usize;
    let used = put_lines(page, at, first + 1, &log[..3 * taken]);
    match end.stop {
        RunStop::Full => Page {
            used,
            rest: Rest::Walking(Stand {
                step: first + taken,
                length: end.length,
                event,
            }),
        },
        _ => Page {
            used: put_stop(page, used, outcome_number(&end.outcome())),
            rest: Rest::Done,
        },
    }
}

// The first page: the stop line of a refused program, whatever the query is; of two records and a first event that nothing refuses, the line of the first
// event, which is the same for every query, and what follows it.
fn first_page(program: &[u8], query: &[u8], page: &mut [u8; PAGE]) -> Result<Page, Refusal>
    ensures { PageOrRefusal program.now query.now (text program.now query.now) (suc step_limit) page.old result page.new }
{
    if let Err(refusal) = program_door(program) {
        let number = refusal.number();
        return Ok(stop_page(number, page));
    }
    let mut event = [0; RECORD_LIMIT];
    let length = first_event(query, &mut event)?;
    let used = put_part(page, 0, b"0 call 0 0\n");
    Ok(walk_page(program, &event[..length], 0, used, page))
}

// A later page: the walk goes on from where it stands, if the event there passes the gate, as it does where an earlier page left it.
fn later_page(program: &[u8], stand: &Stand, page: &mut [u8; PAGE]) -> Result<Page, Refusal>
    ensures { (query : List ℕ) → PageOrRefusal program.now query (lines_left program.now stand.now) (suc (step_limit - steps_made stand.now)) page.old result page.new }
{
    let event = &stand.event[..stand.length.min(RECORD_LIMIT)];
    door(program, event)?;
    Ok(walk_page(program, event, stand.step.min(STEP_LIMIT), 0, page))
}

// The page that was filled, or the one that has the stop line alone.
fn page_or_stop(filled: Result<Page, Refusal>, page: &mut [u8; PAGE]) -> Page
    ensures { (program query whole before : List ℕ) (most : ℕ) → PageOrRefusal program query whole most before filled page.old → PageOf program query whole most before 0 result page.new }
{
    match filled {
        Ok(next) => next,
        Err(refusal) => stop_page(refusal.number(), page),
    }
}

// The next page of what is left of the text of two records.
pub fn next_page(program: &[u8], query: &[u8], rest: Rest, page: &mut [u8; PAGE]) -> Page
    ensures { Paged program.now query.now rest page.old result page.new }
{
    match &rest {
        Rest::Start => page_or_stop(first_page(program, query, page), page),
        Rest::Walking(stand) => page_or_stop(later_page(program, stand, page), page),
        Rest::Done => Page { used: 0, rest },
    }
}
