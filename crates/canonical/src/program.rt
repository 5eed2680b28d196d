// All definitions, from the sorted entries: measured, which answers questions 9 and 10, and written as a program.
ghost use Rattle.std.specs.Prelude.{◌≡◌, true, ◌+◌, ◌≤◌, length, Some};
ghost use Rattle.records.specs.Format.Encode.{each, definition_bytes, program_record};
ghost use Rattle.records.specs.Gate.RecordRules.{every};
ghost use Rattle.records.specs.Writing.Patched.{Put};
ghost use Rattle.records.specs.Gate.Reply.{outcome_number, Replied};
ghost use Rattle.canonical.specs.Writing.Service.{locals_fit, program_reply};
ghost use Rattle.canonical.specs.Sorting.Remaining.{Remaining, program_of};
ghost use Rattle.canonical.specs.Writing.Program.{surveyed};

use crate::definition::{group_totals, put_definition};
use crate::order::same_predicate;
use records::kinds::RECORD_LIMIT;
use records::put::{put_record_head, put_word};
use records::questions::Refusal;

// How many definitions there are, and their bytes.
#[derive(Clone, Copy)]
pub struct Survey {
    pub count: usize,
    pub size: usize,
}

// The locals of a definition are counted in one byte.
const LOCALS_LIMIT: usize = 255;

// What the definitions of the sorted entries come to; none where question 9 says no.
// Record and entries stay two arguments: a struct of both, with `Remaining` for its fact, would be made for this one call.
pub fn measure_program(s: &[u8], sorted: &[usize]) -> Option<Survey>
    requires { Remaining s.now sorted.now 0 (program_of s.now) }
    ensures { result ≡ surveyed (program_of s.now) }
{
    let mut count: usize = 0;
    let mut size: usize = 0;
    for group in sorted.chunk_by(|x, y| same_predicate(*x, *y)) {
        let totals = group_totals(s, group);
        if LOCALS_LIMIT < totals.locals {
            return None;
        }
        count += 1;
        size += 3 + totals.size;
    }
    Some(Survey { count, size })
}

fn put_definitions(out: &mut [u8], first: usize, s: &[u8], sorted: &[usize]) -> usize
    requires remaining { Remaining s.now sorted.now 0 (program_of s.now) }
    requires s_value { every locals_fit (program_of s.now) ≡ true }
    requires s_in_bounds { first + length (each definition_bytes (program_of s.now)) ≤ length out.old }
    ensures { Put out.old first (each definition_bytes (program_of s.now)) out.new result }
{
    let mut at = first;
    for group in sorted.chunk_by(|x, y| same_predicate(*x, *y)) {
        at = put_definition(out, at, s, group);
    }
    at
}

// The record of the definitions, which were surveyed.
fn put_record(s: &[u8], sorted: &[usize], survey: Survey, out: &mut [u8]) -> usize
    requires remaining { Remaining s.now sorted.now 0 (program_of s.now) }
    requires survey_value { Some survey ≡ surveyed (program_of s.now) }
    requires size_bound { survey.size ≤ 32763 }
    requires in_bounds { 32768 ≤ length out.old }
    ensures { Put out.old 0 (program_record (program_of s.now)) out.new result }
{
    let count_at = put_record_head(out, survey.size + 5);
    let first = put_word(out, count_at, survey.count);
    put_definitions(out, first, s, sorted)
}

// A record has five bytes besides its definitions.
const FITTING_SIZE: usize = RECORD_LIMIT - 5;

// Questions 9 and 10 (SPECIFICATION 7.6, 8.9), and then the record.
pub fn put_program(s: &[u8], sorted: &[usize], out: &mut [u8]) -> Result<(), Refusal>
    requires remaining { Remaining s.now sorted.now 0 (program_of s.now) }
    requires in_bounds { 32768 ≤ length out.old }
    ensures { Replied (program_reply out.old (program_of s.now)) (outcome_number result) out.new }
{
    let survey = measure_program(s, sorted).ok_or(Refusal::Locals)?;
    if FITTING_SIZE < survey.size {
        return Err(Refusal::Fits);
    }
    put_record(s, sorted, survey, out);
    Ok(())
}
