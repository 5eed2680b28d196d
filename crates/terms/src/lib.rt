// Terms: substitution, the value service, the most general unifier, the body of an atom, and the greatest variable of an event.
#![tactic(auto)]

pub mod apply; // apply.rt: a bet stack applied to a term
pub mod arguments; // arguments.rt: where the arguments of an atom stand
pub mod body; // body.rt: the numbered body of an atom
pub mod classes; // classes.rt: the classes of nodes that a unifier must make equal
pub mod definitions; // definitions.rt: the definition of a predicate and an arity
pub mod equality; // equality.rt: the unifier of the values of two terms of an event
pub mod greatest; // greatest.rt: the greatest variable of an event, and the first new one
pub mod lengths; // lengths.rt: the lengths of the classes' terms
pub mod links; // links.rt: where a look for the pair of a variable begins
pub mod load; // load.rt: two terms in one table of nodes
pub mod nodes; // nodes.rt: the nodes of terms, and their classes
pub mod pairs; // pairs.rt: the pairs of a bet stack, listed
pub mod part; // part.rt: in which part of an event its greatest variable stands
pub mod renaming; // renaming.rt: what a traversal goes over, its variables renamed
pub mod solve; // solve.rt: whether two terms have a unifier
pub mod substitute; // substitute.rt: a term or a goal under a substitution
pub mod tables; // tables.rt: how large tables on the stack are
pub mod unifier; // unifier.rt: the unifier of two values, from bytes to bytes
pub mod value; // value.rt: the value of a variable
pub mod variables; // variables.rt: frames, and one more than the greatest variable of a stack
pub mod write; // write.rt: the terms of the classes as bytes
