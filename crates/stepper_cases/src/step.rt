// Cases of kind f and b: one step forward, one step back.
ghost use Rattle.records.specs.Gate.Reply.{outcome_number};
ghost use Rattle.stepper_cases.specs.Stepped.{SteppedBy};

use crate::answer::print_answer;
use case_io::input::{at_most, read_number_field};
use case_io::line::{print_end, print_start};
use stepper::emit::StepAnswer;
use stepper::service::{step_back, step_forward};

// One step in a direction.
pub fn step(back: bool, program: &[u8], event: &[u8], out: &mut [u8]) -> StepAnswer
    ensures { SteppedBy back program.now event.now out.old (outcome_number result) out.new }
{
    if back {
        step_back(program, event, out)
    } else {
        step_forward(program, event, out)
    }
}

fn print_step(ordinal: u64, back: bool, program: &[u8], event: &[u8], out: &mut [u8]) {
    let answer = step(back, program, event, out);
    print_start(ordinal, if back { b'b' } else { b'f' });
    print_answer(&answer, out);
    print_end();
}

// With an output of so many bytes, at most 40,000.
fn step_with(ordinal: u64, back: bool, program: &[u8], event: &[u8], room: u32) {
    let mut out = [0u8; 40000];
    let n = at_most(room as usize, &out);
    print_step(ordinal, back, program, event, &mut out[..n]);
}

pub fn step_case(ordinal: u64, back: bool, program: &[u8], event: &[u8]) -> Option<()> {
    step_with(ordinal, back, program, event, read_number_field()?);
    Some(())
}
