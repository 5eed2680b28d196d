// A step's answer: the record of the event that it gives, or the question that refuses it.
ghost use Rattle.std.specs.Prelude.{false, ◌≤◌, length};
ghost use Rattle.records.specs.Format.Syntax.{Event};
ghost use Rattle.records.specs.Writing.Plan.{PlanInside};
ghost use Rattle.stepper.specs.Rules.Machine.{gives};
ghost use Rattle.stepper.specs.Rules.Rules.{limited_by};
ghost use Rattle.stepper.specs.Services.Services.{record_limit};
ghost use Rattle.stepper.specs.Plans.Made.{Plans};
ghost use Rattle.stepper.specs.Step.Stepped.{Stepped};

use records::places::PartEnds;
use records::plan::{Plan, emit_plan, plan_ends};
use records::questions::Refusal;

// The record that a step wrote: its length, and where its parts end.
#[derive(Clone, Copy)]
pub struct Reached {
    pub length: usize,
    pub ends: PartEnds,
}

pub type StepAnswer = Result<Reached, Refusal>;

// The event that a plan makes of another, under question 10.
pub fn emit_event(out: &mut [u8], p: Plan, event: &[u8]) -> StepAnswer
    requires plan_inside { PlanInside p event.now }
    requires in_bounds { 32768 ≤ length out.old }
    ensures { (e : Event) → Plans event.now p e → Stepped (limited_by record_limit false (gives e)) out.old result out.new }
{
    let length = emit_plan(out, p, event)?;
    Ok(Reached {
        length,
        ends: plan_ends(p),
    })
}
