// A query as text, behind a text of clauses, to its query record and the list of both texts' names.
ghost use Rattle.std.specs.Prelude.{true, ◌≡◌, ◌+◌, ◌≤◌, length};
ghost use Rattle.records.specs.Gate.Receipt.{receipt_of};
ghost use Rattle.text.specs.Parsing.Questions.{grammatical as grammatical_text, goal_grammatical as grammatical_goal};
ghost use Rattle.reader.specs.Form.Service.{query_text_reply, ReadReplied};

use crate::reply::{QUERY_HEAD, put_goal, survey_body};
use crate::survey::{BODY, LIST, TEXT_LIMIT, survey_query};
use records::put::put_part;
use records::questions::Refusal;
use text::bytes::all_allowed;
use text::grammar::{goal_grammatical, grammatical};

// A text and a goal of the grammar, together no longer than a text may be.
fn read_goal(text: &[u8], query: &[u8], names: &mut [u8], out: &mut [u8]) -> Result<usize, Refusal>
    requires text_value { (grammatical_text text.now ≡ true) × (grammatical_goal query.now ≡ true) }
    requires query_len_bound { length text.now + length query.now ≤ 65535 }
    ensures { ReadReplied (query_text_reply text.now query.now names.old out.old) (receipt_of result).number (receipt_of result).length names.new out.new }
{
    let mut list = [0u8; LIST];
    let mut scratch = [0u8; BODY];
    let survey = survey_query(text, query, &mut list, &mut scratch);
    let body = survey_body(survey, names.len(), out.len(), QUERY_HEAD)?;
    let named = survey.listed;
    put_part(names, 0, &list[..named]);
    put_goal(out, &scratch[body.at..]);
    Ok(named)
}

// 20, 21 and 22 of the text and the query, and then what the query says. Apart from `read`: each question is of one text there and of two here, and their answers
// are other theorems.
pub fn read_query(
    text: &[u8],
    query: &[u8],
    names: &mut [u8],
    out: &mut [u8],
) -> Result<usize, Refusal>
    ensures { ReadReplied (query_text_reply text.now query.now names.old out.old) (receipt_of result).number (receipt_of result).length names.new out.new }
{
    if !all_allowed(text) || !all_allowed(query) {
        return Err(Refusal::Characters);
    }
    if !grammatical(text) || !goal_grammatical(query) {
        return Err(Refusal::Syntax);
    }
    if TEXT_LIMIT < text.len().saturating_add(query.len()) {
        return Err(Refusal::Space);
    }
    read_goal(text, query, names, out)
}
