// What an event tells: the value of a variable, the definition that its goal names, and its greatest variable.
ghost use Rattle.std.specs.Prelude.{◌≡◌, length};
ghost use Rattle.records.specs.Gate.Gate.{read_event};
ghost use Rattle.records.specs.Format.Encode.{term_bytes};
ghost use Rattle.records.specs.Gate.Reply.{Receipted};
ghost use Rattle.terms.specs.Body.GreatestService.{greatest_record};
ghost use Rattle.terms.specs.Values.ValueService.{value_answer};
ghost use Rattle.stepper.specs.Services.Lookup.{lookup};

use records::questions::outcome_number;
use stepper::lookup::lookup_range;
use terms::part::greatest_part;
use terms::value::value;

// S(v) as bare term bytes. How many there are is left in `written`.
#[unsafe(no_mangle)]
pub extern "C" fn fourport_value(event: &[u8], v: u16, out: &mut [u8], written: &mut u32) -> u32
    ensures { Receipted term_bytes (value_answer (read_event event.now) (length out.old) v) out.old (record { number = result; length = written.new }) out.new }
{
    let receipt = value(event, v, out);
    // `as`: a value's length fits by proof, and `try_from` would add a case that never comes
    *written = receipt.unwrap_or(0) as u32;
    u32::from(outcome_number(&receipt))
}

// How many bytes of the program the definition has that the event's goal names, 0 if there is none. Where it starts is left in `at`.
#[unsafe(no_mangle)]
pub extern "C" fn fourport_lookup(program: &[u8], event: &[u8], at: &mut usize) -> usize
    ensures { record { at = at.new; size = result } ≡ lookup program.now event.now }
{
    let range = lookup_range(program, event);
    *at = range.from;
    range.to - range.from
}

// An event's greatest variable, and the first part that holds it: 1 bets, 2 goal, 3 ancestors. Both are 0 where there is none, and where the event is
// refused.
#[unsafe(no_mangle)]
pub extern "C" fn fourport_greatest(event: &[u8], part: &mut u32, greatest: &mut u32) -> u32
    ensures { record { number = result; part = part.new; variable = greatest.new } ≡ greatest_record event.now }
{
    let told = greatest_part(event);
    // `as`: a variable fits by proof too
    (*part, *greatest) = match told {
        Ok(Some(found)) => (u32::from(found.part.number()), found.variable as u32),
        Ok(None) | Err(_) => (0, 0),
    };
    u32::from(outcome_number(&told))
}
