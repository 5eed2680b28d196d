// What is printed of an answer.
use case_io::input::at_most;
use case_io::line::{print_number, print_record, print_word};
use records::questions::Refusal;
use terms::greatest::Greatest;

// At most so many bytes are printed whole.
const WHOLE: usize = 256;

// 0 and the first n bytes of the output.
fn print_written(out: &[u8], n: usize) {
    let used = at_most(n, out);
    print_number(0);
    print_record(&out[..used], WHOLE);
}

// The number of the question that refuses.
fn print_refusal(refusal: Refusal) {
    print_number(u64::from(refusal.number()));
}

pub fn print_value(emit: Result<usize, Refusal>, out: &[u8]) {
    match emit {
        Ok(n) => print_written(out, n),
        Err(refusal) => print_refusal(refusal),
    }
}

// That the event's goal is of another kind, that there is no answer, how long the answer is, or the question that refuses.
pub fn print_case(case: Result<Option<Option<usize>>, Refusal>, out: &[u8]) {
    match case {
        Ok(None) => print_word(b"other"),
        Ok(Some(None)) => print_word(b"none"),
        Ok(Some(Some(n))) => print_written(out, n),
        Err(Refusal::Fits) => print_word(b"long"),
        Err(refusal) => print_refusal(refusal),
    }
}

fn print_found(part: u8, variable: usize) {
    print_number(0);
    print_number(u64::from(part));
    print_number(variable as u64);
}

// Part and variable are 0 where the event has no variable.
pub fn print_part(answer: Result<Option<Greatest>, Refusal>) {
    match answer {
        Ok(Some(greatest)) => print_found(greatest.part.number(), greatest.variable),
        Ok(None) => print_found(0, 0),
        Err(refusal) => print_refusal(refusal),
    }
}
