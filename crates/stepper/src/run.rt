// A run: single steps in one direction, as many as asked for, up to the first that is refused, up to an event that it aims at, or until the log that
// it is lent is full. Callers lend a record and get a record; how the event is held in between is no matter of theirs.
ghost use Rattle.std.specs.Prelude.{◌≡◌, false, ◌+◌, ◌≤◌, ◌<◌, [], length, take};
ghost use Rattle.records.specs.Format.Syntax.{Event};
ghost use Rattle.records.specs.Gate.Gate.{Accepted, tree, read_event};
ghost use Rattle.records.specs.Gate.Reply.{outcome_number};
ghost use Rattle.records.specs.Writing.Patched.{Put};
ghost use Rattle.stepper.specs.Services.Services.{machine};
ghost use Rattle.stepper.specs.Services.Desk.{layers};
ghost use Rattle.records.specs.Ends.Places.{EndsOf};
ghost use Rattle.stepper.specs.Step.Stepped.{Stepped, BothPassed};
ghost use Rattle.stepper.specs.Run.Run.{mark, is_full, less_room, run};
ghost use Rattle.stepper.specs.Run.RunService.{run_record, RunReplied};
ghost use Rattle.stepper.specs.Run.RunLoop.{RunStands, RunHolds, direction, told_mark, mark_numbers, with_mark, port_flag, aimed_at, stop_at, room_of, started_run, stopped_run, run_outcome, met_case, stopped_case, asked, plain_order, refused_run, RanTo, RanHere};

use crate::emit::Reached;
use crate::step::step_on;
use records::door::gate;
use records::kinds::{CALL, EXIT, FAIL, RECORD_LIMIT};
use records::places::{PartEnds, part_ends, places_by};
use records::put::put_part;
use records::questions::Refusal;

// Events of these ports that have so many ancestors.
#[derive(Clone, Copy, Default)]
pub struct RunAim {
    pub call: bool,
    pub exit: bool,
    pub fail: bool,
    pub redo: bool,
    pub ancestors: usize,
}

// What is asked of a run: its direction, its aim, and whether the slice that it is lent is a log, of three numbers a mark. (No Option of a log: what is lent
// and no log stays as it was.)
#[derive(Clone, Copy, Default)]
pub struct RunOrder {
    pub back: bool,
    pub aim: Option<RunAim>,
    pub logged: bool,
}

// Why a run stopped: all steps are taken, the aim is met, the log is full, or a question refuses the next step.
#[derive(Clone, Copy, PartialEq, Eq)]
pub enum RunStop {
    Spent,
    Met,
    Full,
    Refused(Refusal),
}

// Why a run stopped, the steps that it took, and of the record that it reached the length and where its parts end.
#[derive(Clone, Copy)]
pub struct RunAnswer {
    pub stop: RunStop,
    pub taken: u32,
    pub length: usize,
    pub ends: PartEnds,
}

impl RunAnswer {
    // Done, or the question that stopped the run.
    pub fn outcome(self) -> Result<(), Refusal>
        ensures { result ≡ run_outcome self.stop }
    {
        match self.stop {
            RunStop::Refused(refusal) => Err(refusal),
            _ => Ok(()),
        }
    }
}

// An event's port and the sizes of its stacks.
#[derive(Clone, Copy)]
pub struct RunMark {
    pub port: u8,
    pub ancestors: usize,
    pub bets: usize,
}

// The mark of an accepted event, by the ends of its parts.
fn event_mark(event: &[u8], ends: PartEnds) -> RunMark
    requires accepted { Accepted (read_event event.now) }
    requires ends_of { EndsOf event.now ends }
    ensures { (e : Event) → read_event event.now ≡ tree e → result ≡ told_mark (mark e) }
{
    let p = places_by(event, ends);
    RunMark {
        port: p.port,
        ancestors: p.ancestors.count,
        bets: p.bets.count,
    }
}

// Whether events of this port are aimed at.
fn has_port(aim: RunAim, port: u8) -> bool
    ensures { result ≡ port_flag aim port }
{
    match port {
        CALL => aim.call,
        EXIT => aim.exit,
        FAIL => aim.fail,
        _ => aim.redo,
    }
}

// Whether an event of this mark is aimed at.
fn meets(aim: RunAim, mark: RunMark) -> bool
    ensures { result ≡ aimed_at aim mark }
{
    mark.ancestors == aim.ancestors && has_port(aim, mark.port)
}

// Why a run stops at an event of this mark, which its last step gave: the aim is met, or the steps are taken.
fn stop_at(order: RunOrder, mark: RunMark) -> RunStop
    ensures { result ≡ stop_at order mark }
{
    if order.aim.is_some_and(|aim| meets(aim, mark)) {
        RunStop::Met
    } else {
        RunStop::Spent
    }
}

// A log has so many numbers for a mark.
pub const MARK_NUMBERS: usize = 3;

// Whether a log has no room for a mark behind `taken` marks.
fn is_full(logged: bool, length: usize, taken: usize) -> bool
    ensures { result ≡ is_full (less_room taken (room_of logged length)) }
{
    logged && length / MARK_NUMBERS <= taken
}

fn put_mark(log: &mut [usize], at: usize, mark: RunMark) -> usize
    requires { at + 3 ≤ length log.old }
    ensures { Put log.old at (mark_numbers mark) log.new result }
{
    log[at] = usize::from(mark.port);
    log[at + 1] = mark.ancestors;
    log[at + 2] = mark.bets;
    at + 3
}

// Puts the mark of an event that is reached by the step after `taken` steps into the log, if there is one.
fn log_mark(log: &mut [usize], logged: bool, taken: usize, mark: RunMark)
    requires { is_full (less_room taken (room_of logged (length log.old))) ≡ false }
    ensures { log.new ≡ with_mark logged log.old taken mark }
{
    if logged {
        put_mark(log, MARK_NUMBERS * taken, mark);
    }
}

// The run stops where it stands.
fn stopped(last: RunAnswer, stop: RunStop) -> RunAnswer
    ensures { result ≡ stopped_run last stop }
{
    RunAnswer { stop, ..last }
}

// One turn of a run that stands where `last` tells, at the event whose record is at the front of `here`: the log is asked for room, the step is made
// in `there`, its event is put at the front of `here` and its mark into the log, and the aim is asked.
fn run_turn(
    program: &[u8],
    here: &mut [u8],
    there: &mut [u8],
    order: RunOrder,
    last: RunAnswer,
    log: &mut [usize],
) -> RunAnswer
    requires run_stands { RunStands program.now order last here.old log.old }
    requires taken_bound { last.taken < 4294967295 }
    requires in_bounds { 32768 ≤ length here.old }
    requires in_bounds_2 { 32768 ≤ length there.old }
    ensures { (g : RunStands program.now order last here.old log.old) → RunHolds g (last.taken + 1) result here.new log.new }
{
    // A usize has 64 bits here, and no `From` for a u32.
    let taken = last.taken as usize;
    if is_full(order.logged, log.len(), taken) {
        return stopped(last, RunStop::Full);
    }
    let len = last.length;
    match step_on(program, &here[..len], last.ends, order.back, there) {
        Err(refusal) => stopped(last, RunStop::Refused(refusal)),
        Ok(Reached { length, ends }) => {
            let mark = event_mark(&there[..length], ends);
            put_part(here, 0, &there[..length]);
            log_mark(log, order.logged, taken, mark);
            RunAnswer {
                stop: stop_at(order, mark),
                taken: last.taken + 1,
                length,
                ends,
            }
        }
    }
}

// Whether a run met its aim.
pub fn is_met(stop: RunStop) -> bool
    ensures { result ≡ met_case stop }
{
    matches!(stop, RunStop::Met)
}

// Whether a run has stopped before all its steps were taken.
fn has_stopped(stop: RunStop) -> bool
    ensures { result ≡ stopped_case stop }
{
    !matches!(stop, RunStop::Spent)
}

// A run that stands where `first` tells, up to so many steps in all.
fn run_on(
    program: &[u8],
    here: &mut [u8],
    order: RunOrder,
    first: RunAnswer,
    steps: u32,
    log: &mut [usize],
) -> RunAnswer
    requires run_stands { RunStands program.now order first here.old log.old }
    requires taken_le_steps { first.taken ≤ steps }
    requires in_bounds { 32768 ≤ length here.old }
    ensures { (g : RunStands program.now order first here.old log.old) → RunHolds g steps result here.new log.new }
{
    let mut there = [0; RECORD_LIMIT];
    let mut last = first;
    for _ in first.taken..steps {
        last = run_turn(program, here, &mut there, order, last, log);
        if has_stopped(last.stop) {
            return last;
        }
    }
    last
}

// A run that has taken no step, at an event whose record has this length and these ends.
fn started(length: usize, ends: PartEnds) -> RunAnswer
    ensures { result ≡ started_run length ends }
{
    RunAnswer {
        stop: RunStop::Spent,
        taken: 0,
        length,
        ends,
    }
}

// The run from an accepted event under an accepted program. Where the order wants a log, its slice is lent as one, else it is left alone.
pub fn run_from(
    program: &[u8],
    event: &[u8],
    order: RunOrder,
    steps: u32,
    log: &mut [usize],
    out: &mut [u8],
) -> RunAnswer
    requires both_passed { BothPassed program.now event.now }
    requires in_bounds { 32768 ≤ length out.old }
    ensures { (w : BothPassed program.now event.now) → RanTo (run (machine layers w.definitions) (asked order log.old) steps w.event) order.logged log.old out.old result log.new out.new }
{
    let mut here = [0; RECORD_LIMIT];
    let length = put_part(&mut here, 0, event);
    let ends = part_ends(event);
    let first = started(length, ends);
    let r = run_on(program, &mut here, order, first, steps, log);
    let reached = r.length;
    put_part(out, 0, &here[..reached]);
    r
}

// The run that is lent no log, from the event whose record has the first bytes of `here`; its parts end at `ends`. The record of the event reached is left
// there, and behind it any bytes.
pub fn run_here(
    program: &[u8],
    here: &mut [u8],
    len: usize,
    ends: PartEnds,
    order: RunOrder,
    steps: u32,
) -> RunAnswer
    requires len_in_bounds { (len ≤ length here.old) × (32768 ≤ length here.old) }
    requires both_passed { BothPassed program.now (take len here.old) }
    requires ends_of { EndsOf (take len here.old) ends }
    ensures { (w : BothPassed program.now (take len here.old)) → RanHere (run (machine layers w.definitions) (asked order []) steps w.event) result here.old here.new }
{
    run_on(program, here, order, started(len, ends), steps, &mut [])
}

// Steps alone.
fn plain_order(back: bool) -> RunOrder
    ensures { result ≡ plain_order back }
{
    RunOrder {
        back,
        ..RunOrder::default()
    }
}

// A run that the gate refuses.
fn refused_run(refusal: Refusal) -> RunAnswer
    ensures { result ≡ refused_run refusal }
{
    RunAnswer {
        stop: RunStop::Refused(refusal),
        taken: 0,
        length: 0,
        ends: PartEnds {
            goal: 0,
            ancestors: 0,
        },
    }
}

// The run service: the gate, and then the run with no aim and no log. The event reached is written, also where the run was stopped.
pub fn run(program: &[u8], event: &[u8], steps: u32, back: bool, out: &mut [u8]) -> RunAnswer
    ensures { RunReplied (run_record layers (direction back) steps program.now event.now out.old) (outcome_number (run_outcome result.stop)) result.taken out.new }
{
    match gate(program, event, out.len()) {
        Err(refusal) => refused_run(refusal),
        Ok(()) => run_from(program, event, plain_order(back), steps, &mut [], out),
    }
}
