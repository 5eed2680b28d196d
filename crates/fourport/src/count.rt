// The port counts of a walk, which the caller keeps.
ghost use Rattle.std.specs.Prelude.{◌≡◌};
ghost use Rattle.stepper.specs.Services.Counts.{count_record};
ghost use Rattle.stepper.specs.Services.PortCounts.{counts_of, counts_reply};

use records::questions::outcome_number;
use stepper::counts::{PortCounts, count};

// Adds an event's port to the counts that are lent; a refused event changes none.
#[unsafe(no_mangle)]
pub extern "C" fn fourport_count(counts: &mut PortCounts, event: &[u8]) -> u32
    ensures { counts_reply result counts.new ≡ count_record event.now (counts_of counts.old) }
{
    let counted = count(*counts, event);
    *counts = counted.unwrap_or(*counts);
    u32::from(outcome_number(&counted))
}
