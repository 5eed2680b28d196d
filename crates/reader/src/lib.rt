// Rules as text: from a text to its clause record and the list of its names.
#![tactic(auto)]

pub mod cells;
pub mod emit;
pub mod names;
pub mod push;
pub mod query;
pub mod read;
pub mod reply;
pub mod roles;
pub mod sort;
pub mod survey;
pub mod trie;
pub mod variables;
