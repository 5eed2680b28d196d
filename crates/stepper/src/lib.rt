// The stepper: first event, step forward, step back, run.
#![tactic(auto)]

pub mod view; // view.rt: what a rule looks at in an event
pub mod layouts; // layouts.rt: the plans of the rules
pub mod rules; // rules.rt: the names of the rules
pub mod forward; // forward.rt: rules and plans of steps forward
pub mod back; // back.rt: rules and plans of steps back
pub mod first; // first.rt: query to first event
pub mod half; // half.rt: whether a goal is the half that its ancestor selects
pub mod emit; // emit.rt: what a step leaves
pub mod around; // around.rt: an event around a unifier or a body that stands in the output
pub mod settle; // settle.rt: equalities and atoms, forward from call and back from fail
pub mod same; // same.rt: the comparisons of a step back
pub mod step; // step.rt: one step inside a run
pub mod service; // service.rt: one step forward and one step back, behind the gate
pub mod run; // run.rt: a run
pub mod lookup; // lookup.rt: the definition that an atom names
pub mod counts; // counts.rt: the port counts of a walk
