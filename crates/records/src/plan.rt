// The record of an event, written from a plan: which bytes to put, and which ranges of another record to copy.
ghost use Rattle.std.specs.Prelude.{◌≡◌, ◌+◌, ◌-◌, ◌<◌, ◌≤◌, length};
ghost use Rattle.records.specs.Writing.Patched.{Put};
ghost use Rattle.records.specs.Ends.Range.{size, Inside};
ghost use Rattle.records.specs.Writing.Plan.{lead_bytes, piece_bytes, stack_bytes, planned_body, planned, PlanInside, piece_length, stack_length, body_length, plan_length, limited, plan_ends};
ghost use Rattle.records.specs.Writing.Emitted.{Emitted};
ghost use Rattle.records.specs.Gate.Receipt.{receipt_of};

use crate::kinds::RECORD_LIMIT;
use crate::places::PartEnds;
use crate::put::{Range, put_byte, put_range, put_record_head, put_word};
use crate::questions::Refusal;

// The bytes that stand before a part: a kind byte, and a tag.
#[derive(Clone, Copy)]
pub enum Lead {
    Bare,
    One(u8),
    Two(u8, u8),
}

// A lead, and then a range of the source.
#[derive(Clone, Copy)]
pub struct Piece {
    pub lead: Lead,
    pub range: Range,
}

// A stack's new count, its new top (a bare lead and an empty range where nothing is put on it) and the rest.
#[derive(Clone, Copy)]
pub struct Stack {
    pub count: usize,
    pub top: Piece,
    pub rest: Range,
}

// An event: its port, its goal and its two stacks.
#[derive(Clone, Copy)]
pub struct Plan {
    pub port: u8,
    pub goal: Piece,
    pub ancestors: Stack,
    pub bets: Stack,
}

// The bytes of a lead.
fn put_lead(out: &mut [u8], at: usize, lead: Lead) -> usize
    requires { at + length (lead_bytes lead) ≤ length out.old }
    ensures { Put out.old at (lead_bytes lead) out.new result }
{
    match lead {
        Lead::Bare => at,
        Lead::One(kind) => put_byte(out, at, kind),
        Lead::Two(kind, tag) => {
            let next = put_byte(out, at, kind);
            put_byte(out, next, tag)
        }
    }
}

// A lead, and then a range of the source.
fn put_piece(out: &mut [u8], at: usize, piece: Piece, source: &[u8]) -> usize
    requires inside { Inside piece.range source.now }
    requires piece_in_bounds { at + piece_length piece ≤ length out.old }
    ensures { Put out.old at (piece_bytes piece source.now) out.new result }
{
    let next = put_lead(out, at, piece.lead);
    put_range(out, next, source, piece.range)
}

// A stack's count, its new top and the rest.
fn put_stack(out: &mut [u8], at: usize, stack: Stack, source: &[u8]) -> usize
    requires inside { Inside stack.top.range source.now }
    requires inside_2 { Inside stack.rest source.now }
    requires stack_in_bounds { at + stack_length stack ≤ length out.old }
    ensures { Put out.old at (stack_bytes stack source.now) out.new result }
{
    let top_at = put_word(out, at, stack.count);
    let rest_at = put_piece(out, top_at, stack.top, source);
    put_range(out, rest_at, source, stack.rest)
}

// An event's body.
fn put_body(out: &mut [u8], at: usize, p: Plan, source: &[u8]) -> usize
    requires plan_inside { PlanInside p source.now }
    requires p_in_bounds { at + body_length p ≤ length out.old }
    ensures { Put out.old at (planned_body p source.now) out.new result }
{
    let goal_at = put_byte(out, at, p.port);
    let ancestors_at = put_piece(out, goal_at, p.goal, source);
    let bets_at = put_stack(out, ancestors_at, p.ancestors, source);
    put_stack(out, bets_at, p.bets, source)
}

// No record is that long.
const BEYOND: usize = RECORD_LIMIT + 1;

// A length, or BEYOND where it is more. Each part's length is limited, so that no sum wraps.
fn limit(n: usize) -> usize
    ensures { result ≡ limited n }
{
    n.min(BEYOND)
}

// How many bytes a range has; none where its places are out of order.
fn measure_range(range: Range) -> usize
    ensures { result ≡ limited (size range) }
{
    limit(range.to.saturating_sub(range.from))
}

// How many bytes a lead has.
fn measure_lead(lead: Lead) -> usize
    ensures { result ≡ length (lead_bytes lead) }
{
    match lead {
        Lead::Bare => 0,
        Lead::One(_) => 1,
        Lead::Two(_, _) => 2,
    }
}

// How many bytes a piece has.
fn measure_piece(piece: Piece) -> usize
    ensures { result ≡ limited (piece_length piece) }
{
    limit(measure_lead(piece.lead) + measure_range(piece.range))
}

// How many bytes a stack has: its count, its top, the rest.
fn measure_stack(stack: Stack) -> usize
    ensures { result ≡ limited (stack_length stack) }
{
    limit(2 + measure_piece(stack.top) + measure_range(stack.rest))
}

// How many bytes a record has: length field, version, port, goal, stacks.
fn measure_plan(p: Plan) -> usize
    ensures { result ≡ limited (plan_length p) }
{
    limit(4 + measure_piece(p.goal) + measure_stack(p.ancestors) + measure_stack(p.bets))
}

// Where the goal and the ancestors of the planned event end.
pub fn plan_ends(p: Plan) -> PartEnds
    ensures { result ≡ plan_ends p }
{
    let goal = limit(4 + measure_piece(p.goal));
    PartEnds {
        goal,
        ancestors: limit(goal + measure_stack(p.ancestors)),
    }
}

// The record that a plan makes of a source, written from the output's start, and its length. Question 5 refuses an output that is too short, question 10 a
// record that is too long; then nothing is written.
pub fn emit_plan(out: &mut [u8], p: Plan, source: &[u8]) -> Result<usize, Refusal>
    requires { PlanInside p source.now }
    ensures { Emitted out.old (planned p source.now) (receipt_of result) out.new }
{
    if out.len() < RECORD_LIMIT {
        return Err(Refusal::Output);
    }
    let n = measure_plan(p);
    if RECORD_LIMIT < n {
        return Err(Refusal::Fits);
    }
    let body_at = put_record_head(out, n);
    Ok(put_body(out, body_at, p, source))
}
