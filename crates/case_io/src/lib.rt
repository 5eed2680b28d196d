// What the programs with stored cases share: what they read of a case, and what they print of an answer.
#![tactic(auto)]

pub mod cases; // cases.rt: the cases of an input, one after another
pub mod digest; // digest.rt: how many bytes and lines a text has, and its checksum
pub mod input; // input.rt: the kind, the fields and the numbers of a case
pub mod line; // line.rt: the numbers, words and records of a line
