// One step forward and one step back: the gate, and then the step.
ghost use Rattle.stepper.specs.Walks.Walk.{forward, back};
ghost use Rattle.stepper.specs.Run.RunLoop.{direction};
ghost use Rattle.stepper.specs.Services.Services.{step_record};
ghost use Rattle.stepper.specs.Services.Desk.{layers};
ghost use Rattle.records.specs.Gate.Reply.{Replied, outcome_number};

use crate::emit::StepAnswer;
use crate::step::step_on;
use records::door::gate;
use records::places::part_ends;

// The gate, and then a step in a direction.
fn gated_step(program: &[u8], event: &[u8], back: bool, out: &mut [u8]) -> StepAnswer
    ensures { Replied (step_record layers (direction back) program.now event.now out.old) (outcome_number result) out.new }
{
    gate(program, event, out.len())?;
    step_on(program, event, part_ends(event), back, out)
}

// The next event's record, or the question that refuses.
pub fn step_forward(program: &[u8], event: &[u8], out: &mut [u8]) -> StepAnswer
    ensures { Replied (step_record layers forward program.now event.now out.old) (outcome_number result) out.new }
{
    gated_step(program, event, false, out)
}

// The record of the event's source, or the question that refuses.
pub fn step_back(program: &[u8], event: &[u8], out: &mut [u8]) -> StepAnswer
    ensures { Replied (step_record layers back program.now event.now out.old) (outcome_number result) out.new }
{
    gated_step(program, event, true, out)
}
