// The text that the walk program prints of a program record and a query record, page by page; and how many bytes of an input belong to a record.
#![tactic(auto)]

pub mod input; // input.rt: the records of an input
mod line; // line.rt: the lines of a walk
pub mod text; // text.rt: the next page of a text
