// Cases of kind c: the port counts of a walk.
use crate::answer::print_outcome;
use case_io::input::read_number;
use case_io::line::{print_end, print_number, print_start};
use stepper::counts::{PortCounts, count};

fn print_counts(counts: PortCounts) {
    print_number(u64::from(counts.calls));
    print_number(u64::from(counts.exits));
    print_number(u64::from(counts.fails));
    print_number(u64::from(counts.redos));
}

fn print_count(ordinal: u64, counts: PortCounts, event: &[u8]) {
    let counted = count(counts, event);
    print_start(ordinal, b'c');
    print_outcome(&counted);
    print_counts(counted.unwrap_or(counts));
    print_end();
}

// The counts are one field of 16 bytes.
fn read_counts() -> Option<PortCounts> {
    if read_number()? != 16 {
        return None;
    }
    let calls = read_number()?;
    let exits = read_number()?;
    let fails = read_number()?;
    let redos = read_number()?;
    Some(PortCounts {
        calls,
        exits,
        fails,
        redos,
    })
}

pub fn count_case(ordinal: u64, event: &[u8]) -> Option<()> {
    print_count(ordinal, read_counts()?, event);
    Some(())
}
