// What is printed of a service's answer.
use case_io::line::{print_number, print_record, record_length};
use records::questions::{Refusal, outcome_number};

// A record of at most so many bytes is printed whole.
const WHOLE: usize = 200;

// The record that a buffer starts with.
pub fn print_front(buffer: &[u8]) {
    let n = record_length(buffer);
    print_record(&buffer[..n], WHOLE);
}

// The number of a service's outcome: 0, or that of the question that refuses.
pub fn print_outcome<T>(outcome: &Result<T, Refusal>) {
    print_number(u64::from(outcome_number(outcome)));
}

// The same and, where nothing refuses, the record that the output starts with.
pub fn print_answer<T>(outcome: &Result<T, Refusal>, out: &[u8]) {
    print_outcome(outcome);
    if outcome.is_ok() {
        print_front(out);
    }
}
