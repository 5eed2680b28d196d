// The walk program: reads a program record and a query record from standard input, and prints the text that `walk_text` makes of them.
#![tactic(auto)]

mod input; // input.rt: records from standard input
mod output; // output.rt: a text to standard output

use input::{read_query, read_record};
use output::print_text;
use records::kinds::RECORD_LIMIT;

fn main() {
    let mut program = [0; RECORD_LIMIT];
    let mut query = [0; RECORD_LIMIT];
    let p = read_record(&mut program);
    let q = read_query(&program[..p], &mut query);
    print_text(&program[..p], &query[..q]);
}
