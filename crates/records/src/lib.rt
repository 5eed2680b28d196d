// Records: what the desk's bytes say, and how they are written.
#![tactic(auto)]

pub mod compare;
pub mod door;
pub mod ends;
pub mod gate;
pub mod heads;
pub mod kinds;
pub mod places;
pub mod plan;
pub mod put;
pub mod questions;
pub mod rules;
pub mod sets;
pub mod traverse;
