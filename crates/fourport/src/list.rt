// The list of a query's answers.
ghost use Rattle.answers.specs.Form.Service.{answers_record, AnswersReplied};
ghost use Rattle.stepper.specs.Services.Desk.{layers};

use answers::service::answers;
use records::questions::outcome_number;

// Every answer of a query, and what gave it, within so many steps and as far as the output goes. The bytes of the answers are left in `written`, and the
// steps made in `taken`.
#[unsafe(no_mangle)]
pub extern "C" fn fourport_answers(
    program: &[u8],
    query: &[u8],
    steps: u32,
    out: &mut [u8],
    written: &mut usize,
    taken: &mut u32,
) -> u32
    ensures { AnswersReplied (answers_record layers steps program.now query.now out.old) result written.new taken.new out.new }
{
    let list = answers(program, query, steps, out);
    *written = list.written;
    *taken = list.taken;
    u32::from(outcome_number(&list.outcome))
}
