// The clauses of one predicate, a group of the sorted entries: measured, and written as the predicate's definition.
ghost use Rattle.std.specs.Prelude.{◌≡◌, suc, ◌+◌, ◌≤◌, ◌<◌, length};
ghost use Rattle.records.specs.Format.Encode.{goal_bytes, definition_bytes};
ghost use Rattle.records.specs.Writing.Patched.{Put};
ghost use Rattle.canonical.specs.Form.Canonical.{variable_count, locals_of};
ghost use Rattle.canonical.specs.Writing.Definition.{branch_size};
ghost use Rattle.canonical.specs.Sorting.Entries.{ClauseAt, clause_at, clauses_in, GroupAt};
ghost use Rattle.canonical.specs.Writing.Definition.{joined_branches, group_definition, Sums};

use crate::branch::put_branch;
use crate::order::place_of;
use records::ends::clause_end;
use records::heads::clause_head;
use records::kinds::DISJ;
use records::put::{put_byte, put_part, put_word};

// A group's variables, and the bytes of its branches, each with the byte that joins it to the next one.
#[derive(Clone, Copy)]
pub struct Totals {
    pub locals: usize,
    pub size: usize,
}

fn clause_variables(s: &[u8], place: usize) -> usize
    requires { ClauseAt s.now place }
    ensures { result ≡ variable_count (clause_at s.now place) }
{
    match clause_head(s, place) {
        Some(signature) => signature.count,
        None => 0,
    }
}

// The bytes of a clause's branch and of the byte that joins it to the next one: an equation has five bytes more than its term.
fn clause_size(s: &[u8], place: usize) -> usize
    requires { ClauseAt s.now place }
    ensures { result ≡ suc (branch_size (clause_at s.now place)) }
{
    let Some(signature) = clause_head(s, place) else {
        return 0;
    };
    let Some(end) = clause_end(s, place) else {
        return 0;
    };
    5 * signature.arity + (end - place - 3)
}

// Record and group stay two arguments: a struct of both, with `GroupAt` for its fact, would be made for this one call.
pub fn group_totals(s: &[u8], group: &[usize]) -> Totals
    requires { GroupAt s.now group.now }
    ensures { Sums (clauses_in s.now group.now) result }
{
    let mut locals: usize = 0;
    let mut size: usize = 0;
    for entry in group {
        let place = place_of(*entry);
        locals += clause_variables(s, place);
        size += clause_size(s, place);
    }
    Totals { locals, size }
}

// The branches of a group, each but the last behind the byte that joins it to the next one, the variables of each numbered behind those of the one before it.
fn put_branches(out: &mut [u8], first: usize, s: &[u8], group: &[usize], arity: usize) -> usize
    requires group_at { GroupAt s.now group.now }
    requires group_nonzero { 0 < length group.now }
    requires group_bound { arity + locals_of (clauses_in s.now group.now) ≤ 65536 }
    requires group_in_bounds { first + length (goal_bytes (joined_branches arity (clauses_in s.now group.now))) ≤ length out.old }
    ensures { Put out.old first (goal_bytes (joined_branches arity (clauses_in s.now group.now))) out.new result }
{
    let Some((last, others)) = group.split_last() else {
        return first;
    };
    let mut at = first;
    let mut base = arity;
    for entry in others {
        let place = place_of(*entry);
        let branch_at = put_byte(out, at, DISJ);
        at = put_branch(out, branch_at, s, place, base);
        base += clause_variables(s, place);
    }
    put_branch(out, at, s, place_of(*last), base)
}

// The definition that a group makes, whose locals pass question 9.
pub fn put_definition(out: &mut [u8], at: usize, s: &[u8], group: &[usize]) -> usize
    requires group_at { GroupAt s.now group.now }
    requires group_nonzero { 0 < length group.now }
    requires group_bound { locals_of (clauses_in s.now group.now) ≤ 255 }
    requires group_in_bounds { at + length (definition_bytes (group_definition (clauses_in s.now group.now))) ≤ length out.old }
    ensures { Put out.old at (definition_bytes (group_definition (clauses_in s.now group.now))) out.new result }
{
    let place = place_of(group[0]);
    let Some(signature) = clause_head(s, place) else {
        return at;
    };
    let totals = group_totals(s, group);
    let arity_at = put_word(out, at, signature.predicate);
    // The remainders stay: without them the wrong program of must-fail/locals_256.edit would stop in place of a wrong answer.
    let goal_at = put_part(
        out,
        arity_at,
        &[(signature.arity % 256) as u8, (totals.locals % 256) as u8],
    );
    put_branches(out, goal_at, s, group, signature.arity)
}
