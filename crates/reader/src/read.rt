// A text of clauses to its clause record and the list of its names.
ghost use Rattle.std.specs.Prelude.{true, ◌≡◌, ◌≤◌, length};
ghost use Rattle.records.specs.Gate.Receipt.{receipt_of};
ghost use Rattle.text.specs.Parsing.Questions.{grammatical as grammatical_text};
ghost use Rattle.reader.specs.Form.Service.{clauses_text_reply, ReadReplied};

use crate::reply::{CLAUSES_HEAD, put_clauses, survey_body};
use crate::survey::{BODY, LIST, TEXT_LIMIT, survey_clauses};
use records::put::put_part;
use records::questions::Refusal;
use text::bytes::all_allowed;
use text::grammar::grammatical;

// A text of the grammar that is no longer than a text may be.
fn read_clauses(text: &[u8], names: &mut [u8], out: &mut [u8]) -> Result<usize, Refusal>
    requires { (grammatical_text text.now ≡ true) × (length text.now ≤ 65535) }
    ensures { ReadReplied (clauses_text_reply text.now names.old out.old) (receipt_of result).number (receipt_of result).length names.new out.new }
{
    let mut list = [0u8; LIST];
    let mut scratch = [0u8; BODY];
    let survey = survey_clauses(text, &mut list, &mut scratch);
    let body = survey_body(survey, names.len(), out.len(), CLAUSES_HEAD)?;
    let named = survey.listed;
    put_part(names, 0, &list[..named]);
    put_clauses(out, &scratch[body.at..], body.clauses);
    Ok(named)
}

// 20, 21 and 22 of the text, and then what it says.
pub fn read(text: &[u8], names: &mut [u8], out: &mut [u8]) -> Result<usize, Refusal>
    ensures { ReadReplied (clauses_text_reply text.now names.old out.old) (receipt_of result).number (receipt_of result).length names.new out.new }
{
    if !all_allowed(text) {
        return Err(Refusal::Characters);
    }
    if !grammatical(text) {
        return Err(Refusal::Syntax);
    }
    if TEXT_LIMIT < text.len() {
        return Err(Refusal::Space);
    }
    read_clauses(text, names, out)
}
