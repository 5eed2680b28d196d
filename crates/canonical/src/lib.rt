// The canonical form (SPECIFICATION 2): from clauses to the program that the calculus works on.
#![tactic(auto)]

pub mod branch; // branch.rt: a clause's branch, written
pub mod definition; // definition.rt: a predicate's clauses, measured and written as its definition
pub mod order; // order.rt: entries of clauses, sorted
pub mod program; // program.rt: all definitions, measured and written as a program
pub mod service; // service.rt: the service, from a clause record to a program record
