// The service of the greatest variable: in which part of an event it stands, and which it is.
ghost use Rattle.std.specs.Prelude.{◌≡◌};
ghost use Rattle.terms.specs.Body.GreatestService.{part_number, part_reply, greatest_record};

use crate::greatest::{Greatest, Part, greatest_variable};
use crate::variables::event_frame;
use records::door::event_door;
use records::places::event_places;
use records::questions::Refusal;

impl Part {
    // The number by which C programs and pages know the part; 0 stands for none.
    pub fn number(self) -> u8
        ensures { result ≡ part_number self }
    {
        match self {
            Part::Bets => 1,
            Part::Goal => 2,
            Part::Ancestors => 3,
        }
    }
}

// For every event record: 11 to 14, or its greatest variable with the part that holds it, if it has one.
pub fn greatest_part(event: &[u8]) -> Result<Option<Greatest>, Refusal>
    ensures { part_reply result ≡ greatest_record event.now }
{
    event_door(event)?;
    let places = event_places(event);
    Ok(greatest_variable(event, event_frame(places)))
}
