// The body that a survey leads to or the question that refuses it, and what is written of a body.
ghost use Rattle.std.specs.Prelude.{Bool, List, Ok, Some, ◌≡◌, ℕ, ◌+◌, ◌≤◌, ◌<◌, length};
ghost use Rattle.records.specs.Format.Encode.{each, clause_bytes, clauses_record, record_of};
ghost use Rattle.records.specs.Format.Syntax.{Clause};
ghost use Rattle.records.specs.Gate.Reply.{answer_number, outcome_number};
ghost use Rattle.records.specs.Writing.Patched.{Put};
ghost use Rattle.reader.specs.Form.Service.{written_answer};
ghost use Rattle.reader.specs.Survey.Survey.{Surveyed};
ghost use Rattle.reader.specs.declared.survey.Body.{Body};

use crate::survey::{Body, Survey};
use records::kinds::RECORD_LIMIT;
use records::put::{put_part, put_record_head, put_word};
use records::questions::{Fault, Refusal};

// How much longer a clause record is than its clauses, and a query's than its goal.
pub const CLAUSES_HEAD: usize = 5;

pub const QUERY_HEAD: usize = 3;

// 22 of the names in a buffer of `space` bytes, 3, 5 of an output of `room` bytes, and 10 of the record: its `head` and the body, which goes from its place to the end of its buffer.
pub fn survey_body(survey: Survey, space: usize, room: usize, head: usize) -> Result<Body, Refusal>
    requires { 2 < head }
    ensures number { (names bytes rec : List ℕ) (within : Bool) (n : ℕ) (list scratch : List ℕ) → Surveyed names bytes within n list scratch survey → length rec ≡ head + length bytes → outcome_number result ≡ answer_number (written_answer names rec within space room) }
    ensures body { (b : Body) → result ≡ Ok b → survey.body ≡ Some b }
{
    if space < survey.listed {
        return Err(Refusal::Space);
    }
    let body = survey.body.ok_or(Refusal::Program(Fault::Grammar))?;
    if room < RECORD_LIMIT {
        return Err(Refusal::Output);
    }
    if body.at < head - 2 {
        return Err(Refusal::Fits);
    }
    Ok(body)
}

// A clause record, with the bytes of its clauses as they stand in a buffer.
pub fn put_clauses(out: &mut [u8], body: &[u8], clauses: usize) -> usize
    requires { length body.now + 5 ≤ length out.old }
    ensures { (cs : List Clause) → clauses ≡ length cs → body.now ≡ each clause_bytes cs → Put out.old 0 (clauses_record cs) out.new result }
{
    let count_at = put_record_head(out, CLAUSES_HEAD + body.len());
    let first = put_word(out, count_at, clauses);
    put_part(out, first, body)
}

// A query record, with those of its goal.
pub fn put_goal(out: &mut [u8], body: &[u8]) -> usize
    requires { length body.now + 3 ≤ length out.old }
    ensures { Put out.old 0 (record_of body.now) out.new result }
{
    let first = put_record_head(out, QUERY_HEAD + body.len());
    put_part(out, first, body)
}
