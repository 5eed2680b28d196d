// The door of the services: the first question that refuses the records or the output, if one does.
ghost use Rattle.std.specs.Prelude.{◌≡◌};
ghost use Rattle.records.specs.Gate.Gate.{read_query, read_event, read_program, read_clauses};
ghost use Rattle.records.specs.Gate.Reply.{told};
ghost use Rattle.records.specs.Gate.Door.{program_door, event_door, door, gate};

use crate::gate::{clauses_verdict, event_verdict, program_verdict, query_verdict};
use crate::kinds::RECORD_LIMIT;
use crate::questions::Refusal;

// 1 to 4 of a program.
pub fn program_door(program: &[u8]) -> Result<(), Refusal>
    ensures { result ≡ told (program_door (read_program program.now)) }
{
    match program_verdict(program) {
        Ok(()) => Ok(()),
        Err(fault) => Err(Refusal::Program(fault)),
    }
}

// 1 to 4 of a clause record.
pub fn clauses_door(clauses: &[u8]) -> Result<(), Refusal>
    ensures { result ≡ told (program_door (read_clauses clauses.now)) }
{
    match clauses_verdict(clauses) {
        Ok(()) => Ok(()),
        Err(fault) => Err(Refusal::Program(fault)),
    }
}

// 11 to 14 of a query.
pub fn query_door(query: &[u8]) -> Result<(), Refusal>
    ensures { result ≡ told (event_door (read_query query.now)) }
{
    match query_verdict(query) {
        Ok(()) => Ok(()),
        Err(fault) => Err(Refusal::Event(fault)),
    }
}

// 11 to 14 of an event.
pub fn event_door(event: &[u8]) -> Result<(), Refusal>
    ensures { result ≡ told (event_door (read_event event.now)) }
{
    match event_verdict(event) {
        Ok(()) => Ok(()),
        Err(fault) => Err(Refusal::Event(fault)),
    }
}

// 1 to 4 of the program, and then 11 to 14 of the event.
pub fn door(program: &[u8], event: &[u8]) -> Result<(), Refusal>
    ensures { result ≡ told (door (read_program program.now) (read_event event.now)) }
{
    program_door(program)?;
    event_door(event)
}

// The same, and then 5 for an output of `room` bytes.
pub fn gate(program: &[u8], event: &[u8], room: usize) -> Result<(), Refusal>
    ensures { result ≡ told (gate (read_program program.now) (read_event event.now) room) }
{
    door(program, event)?;
    if room < RECORD_LIMIT {
        Err(Refusal::Output)
    } else {
        Ok(())
    }
}
