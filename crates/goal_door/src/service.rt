// Back to the door of a goal, behind the gate.
ghost use Rattle.records.specs.Gate.Reply.{outcome_number};
ghost use Rattle.stepper.specs.Run.RunService.{RunReplied};
ghost use Rattle.stepper.specs.Services.Desk.{layers};
ghost use Rattle.goal_door.specs.Form.Service.{goal_door_record};

use crate::way::way_back;
use records::door::gate;
use records::kinds::RECORD_LIMIT;
use records::put::put_part;
use records::questions::Refusal;

// What the service tells: done, or the question that ended the way before the door; and the steps made.
#[derive(Clone, Copy)]
pub struct DoorAnswer {
    pub outcome: Result<(), Refusal>,
    pub taken: u32,
}

// The service, for every two records, every limit and every output. The event reached is written, also where the way ends before the door.
pub fn goal_door(program: &[u8], event: &[u8], limit: u32, out: &mut [u8]) -> DoorAnswer
    ensures { RunReplied (goal_door_record layers limit program.now event.now out.old) (outcome_number result.outcome) result.taken out.new }
{
    if let Err(refusal) = gate(program, event, out.len()) {
        return DoorAnswer {
            outcome: Err(refusal),
            taken: 0,
        };
    }
    let mut here: [u8; RECORD_LIMIT] = [0; RECORD_LIMIT];
    let end = way_back(program, event, limit, &mut here);
    let standing = end.standing;
    put_part(out, 0, &here[..standing.length]);
    DoorAnswer {
        outcome: end.outcome,
        taken: standing.taken,
    }
}
