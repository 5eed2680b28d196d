// What a walk starts from: a program made of clauses, and a query's first event.
ghost use Rattle.canonical.specs.Writing.Service.{canonical_record};
ghost use Rattle.stepper.specs.Services.Services.{first_record};
ghost use Rattle.stepper.specs.Services.Desk.{layers};
ghost use Rattle.records.specs.Gate.Reply.{Replied};

use canonical::service::canonical;
use records::questions::outcome_number;
use stepper::first::first_event;

// Clauses to canonical program.
#[unsafe(no_mangle)]
pub extern "C" fn fourport_canonical(clauses: &[u8], out: &mut [u8]) -> u32
    ensures { Replied (canonical_record clauses.now out.old) result out.new }
{
    u32::from(outcome_number(&canonical(clauses, out)))
}

// Query to first event.
#[unsafe(no_mangle)]
pub extern "C" fn fourport_first(query: &[u8], out: &mut [u8]) -> u32
    ensures { Replied (first_record layers query.now out.old) result out.new }
{
    u32::from(outcome_number(&first_event(query, out)))
}
