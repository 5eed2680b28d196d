// The desk's services for programs in Rust and C, each a thin function over the layers that is exported under its own name. What it promises is
// the service's contract with the service's definition, for every input. `include/fourport.h` declares them for C.
#![tactic(auto)]

pub mod start; // start.rt: what a walk starts from: a program, a first event
pub mod step; // step.rt: single steps, and runs
pub mod count; // count.rt: the port counts of a walk
pub mod look; // look.rt: a variable's value, the definition that an atom names, an event's greatest variable
pub mod list; // list.rt: every answer of a query
pub mod door; // door.rt: back to the door of a goal
pub mod read; // read.rt: rules and queries as text
