// Rules as text (SPECIFICATION 13): tokens, and the texts of the grammar.
#![tactic(auto)]

pub mod bytes; // bytes.rt: the classes of bytes, and question 20
pub mod grammar; // grammar.rt: question 21
pub mod lexer; // lexer.rt: the first token from a place on
pub mod table; // table.rt: what may follow what, with two counts
pub mod tokens; // tokens.rt: what a token is to the code
pub mod words; // words.rt: where blanks and words end, and a word's kind
