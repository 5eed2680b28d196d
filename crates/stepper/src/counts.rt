// The port counts of a walk: an accepted event's port is added, and a refused event changes none.
#![tactic(auto, unfolding(crate::specs::Services::Counts::one_more, crate::specs::Services::PortCounts::with_port))]

ghost use Rattle.std.specs.Prelude.{◌≡◌};
ghost use Rattle.stepper.specs.Services.Counts.{one_more, count_record};
ghost use Rattle.stepper.specs.Services.PortCounts.{counts_of, reply_of, with_port};

use records::door::event_door;
use records::kinds::{CALL, EXIT, FAIL};
use records::places::event_places;
use records::questions::Refusal;

// How many events of each port a walk passed, laid out as in C, whose programs lend such counts.
#[repr(C)]
#[derive(Clone, Copy)]
pub struct PortCounts {
    pub calls: u32,
    pub exits: u32,
    pub fails: u32,
    pub redos: u32,
}

// One more, up to the greatest count.
fn one_more(n: u32) -> u32
    ensures { result ≡ one_more n }
{
    n.saturating_add(1)
}

// The counts with one more at a port, 1 to 4.
fn with_port(counts: PortCounts, port: u8) -> PortCounts
    ensures { result ≡ with_port counts port }
{
    match port {
        CALL => PortCounts {
            calls: one_more(counts.calls),
            ..counts
        },
        EXIT => PortCounts {
            exits: one_more(counts.exits),
            ..counts
        },
        FAIL => PortCounts {
            fails: one_more(counts.fails),
            ..counts
        },
        _ => PortCounts {
            redos: one_more(counts.redos),
            ..counts
        },
    }
}

// The counter by value: 11 to 14 of the event, or the counts with its port added.
pub fn count(counts: PortCounts, event: &[u8]) -> Result<PortCounts, Refusal>
    ensures { reply_of counts result ≡ count_record event.now (counts_of counts) }
{
    event_door(event)?;
    Ok(with_port(counts, event_places(event).port))
}
