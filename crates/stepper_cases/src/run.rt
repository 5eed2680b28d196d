// Cases of kind r and s: a run forward, a run back.
use crate::answer::{print_front, print_outcome};
use case_io::input::{at_most, read_number_field};
use case_io::line::{print_end, print_number, print_start};
use records::questions::Refusal;
use stepper::run::{RunAnswer, RunStop, run};

// Whether the gate has refused a run, so that it was not begun.
fn is_unbegun(stop: RunStop) -> bool {
    matches!(
        stop,
        RunStop::Refused(Refusal::Program(_) | Refusal::Event(_) | Refusal::Output)
    )
}

// The number, the steps taken and, where the run was begun, the record that is written.
fn print_reached(answer: RunAnswer, out: &[u8]) {
    print_outcome(&answer.outcome());
    print_number(u64::from(answer.taken));
    if !is_unbegun(answer.stop) {
        print_front(out);
    }
}

fn print_run(ordinal: u64, back: bool, program: &[u8], event: &[u8], steps: u32, out: &mut [u8]) {
    let answer = run(program, event, steps, back, out);
    print_start(ordinal, if back { b's' } else { b'r' });
    print_reached(answer, out);
    print_end();
}

// With an output of so many bytes, at most 40,000.
fn run_with(ordinal: u64, back: bool, program: &[u8], event: &[u8], steps: u32, room: u32) {
    let mut out = [0u8; 40000];
    let n = at_most(room as usize, &out);
    print_run(ordinal, back, program, event, steps, &mut out[..n]);
}

pub fn run_case(ordinal: u64, back: bool, program: &[u8], event: &[u8]) -> Option<()> {
    let steps = read_number_field()?;
    let room = read_number_field()?;
    run_with(ordinal, back, program, event, steps, room);
    Some(())
}
