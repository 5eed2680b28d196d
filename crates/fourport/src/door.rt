// Back to the door of a goal.
ghost use Rattle.goal_door.specs.Form.Service.{goal_door_record};
ghost use Rattle.stepper.specs.Run.RunService.{RunReplied};
ghost use Rattle.stepper.specs.Services.Desk.{layers};

use goal_door::service::goal_door;
use records::questions::outcome_number;

// Back to the nearest event, the given one included, that calls the same goal with the same ancestors, within so many steps. The steps made are left in
// `taken`.
#[unsafe(no_mangle)]
pub extern "C" fn fourport_door(
    program: &[u8],
    event: &[u8],
    limit: u32,
    out: &mut [u8],
    taken: &mut u32,
) -> u32
    ensures { RunReplied (goal_door_record layers limit program.now event.now out.old) result taken.new out.new }
{
    let answer = goal_door(program, event, limit, out);
    *taken = answer.taken;
    u32::from(outcome_number(&answer.outcome))
}
