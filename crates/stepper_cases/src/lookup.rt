// Cases of kind l: the definition that an event's goal names.
use case_io::line::{print_end, print_number, print_start};
use stepper::lookup::{lookup, lookup_range};

// Where the part starts in the program, which its range says, and its length.
pub fn lookup_case(ordinal: u64, program: &[u8], event: &[u8]) -> Option<()> {
    let part = lookup(program, event);
    let range = lookup_range(program, event);
    print_start(ordinal, b'l');
    print_number(range.from as u64);
    print_number(part.len() as u64);
    print_end();
    Some(())
}
