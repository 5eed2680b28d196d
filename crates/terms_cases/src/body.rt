// The body of an event's atom under a program.
ghost use Rattle.records.specs.Gate.Gate.{read_program, read_event};
ghost use Rattle.terms.specs.Body.Definitions.{ProgramAt};
ghost use Rattle.terms.specs.Body.Body.{body};
ghost use Rattle.terms.specs.Body.BodyBytes.{BodyAnswered};
ghost use Rattle.terms_cases.specs.Bodies.{AtomGoal, BodyReplied, body_case};

use records::door::{event_door, program_door};
use records::heads::{GoalHead, goal_head};
use records::places::event_places;
use records::questions::Refusal;
use terms::body::{BodyAnswer, atom_body};
use terms::variables::event_frame;

// The body of the atom that the event's goal is.
fn atom_goal(program: &[u8], event: &[u8], out: &mut [u8]) -> BodyAnswer
    requires program_at { ProgramAt program.now }
    requires atom_goal { AtomGoal event.now }
    ensures { (d : ProgramAt program.now) (a : AtomGoal event.now) → BodyAnswered out.old out.new (body d.definitions a.predicate a.terms a.ancestors a.bets) result }
{
    let frame = event_frame(event_places(event));
    atom_body(program, event, frame, out)
}

// What the event's atom comes to, for every two slices; none where the event's goal is no atom. The program is questioned first.
pub fn body_case(
    program: &[u8],
    event: &[u8],
    out: &mut [u8],
) -> Result<Option<Option<usize>>, Refusal>
    ensures { BodyReplied (body_case (read_program program.now) (read_event event.now)) out.old out.new result }
{
    program_door(program)?;
    event_door(event)?;
    let Some(head) = goal_head(event, 4) else {
        return Ok(None);
    };
    let GoalHead::Atom(_, _) = head else {
        return Ok(None);
    };
    Ok(Some(atom_goal(program, event, out)?))
}
