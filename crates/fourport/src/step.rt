// Steps: one forward, one back, and a run of either.
ghost use Rattle.stepper.specs.Walks.Walk.{forward, back};
ghost use Rattle.stepper.specs.Services.Services.{step_record};
ghost use Rattle.stepper.specs.Services.Desk.{layers};
ghost use Rattle.records.specs.Gate.Reply.{Replied};
ghost use Rattle.stepper.specs.Run.RunService.{run_record, RunReplied};
ghost use Rattle.fourport.specs.Directions.{direction_of};

use records::questions::outcome_number;
use stepper::run::run;
use stepper::service::{step_back, step_forward};

// One step forward.
#[unsafe(no_mangle)]
pub extern "C" fn fourport_forward(program: &[u8], event: &[u8], out: &mut [u8]) -> u32
    ensures { Replied (step_record layers forward program.now event.now out.old) result out.new }
{
    u32::from(outcome_number(&step_forward(program, event, out)))
}

// One step back.
#[unsafe(no_mangle)]
pub extern "C" fn fourport_back(program: &[u8], event: &[u8], out: &mut [u8]) -> u32
    ensures { Replied (step_record layers back program.now event.now out.old) result out.new }
{
    u32::from(outcome_number(&step_back(program, event, out)))
}

// A run of so many steps, forward where `back` is 0. The steps that it took are left in `taken`.
#[unsafe(no_mangle)]
pub extern "C" fn fourport_run(
    program: &[u8],
    event: &[u8],
    steps: u32,
    back: u8,
    out: &mut [u8],
    taken: &mut u32,
) -> u32
    ensures { RunReplied (run_record layers (direction_of back) steps program.now event.now out.old) result taken.new out.new }
{
    let answer = run(program, event, steps, back != 0, out);
    *taken = answer.taken;
    u32::from(outcome_number(&answer.outcome()))
}
