// The questions that refuse (SPECIFICATION 7.2 to 7.7, 13.5), and their numbers.
ghost use Rattle.std.specs.Prelude.{◌≡◌, ◌<◌, Err};
ghost use Rattle.records.specs.Gate.Gate.{program_number, event_number};
ghost use Rattle.records.specs.Gate.Question.{refusal_number};
ghost use Rattle.records.specs.Gate.Reply.{outcome_number};

// Questions 1 to 4, put to every record.
#[derive(Clone, Copy, PartialEq, Eq)]
pub enum Fault {
    Framing,
    Version,
    Grammar,
    Rules,
}

// A question that refuses: one of 1 to 4 of a program or a clause record, the same of a query or an event, or one of those that a service puts besides.
#[derive(Clone, Copy, PartialEq, Eq)]
pub enum Refusal {
    Program(Fault),
    Event(Fault),
    Output,
    Possible,
    Matches,
    Values,
    Locals,
    Fits,
    Characters,
    Syntax,
    Space,
    Allowed,
}

impl Fault {
    // Its number for a program or a clause record.
    fn program_number(self) -> u8
        ensures { (result ≡ program_number (Err self)) × (result < 5) }
    {
        match self {
            Fault::Framing => 1,
            Fault::Version => 2,
            Fault::Grammar => 3,
            Fault::Rules => 4,
        }
    }

    // Its number for a query or an event.
    fn event_number(self) -> u8
        ensures { result ≡ event_number (Err self) }
    {
        10 + self.program_number()
    }
}

impl Refusal {
    // The number by which C programs and pages know the question.
    pub fn number(self) -> u8
        ensures { result ≡ refusal_number self }
    {
        match self {
            Refusal::Program(fault) => fault.program_number(),
            Refusal::Event(fault) => fault.event_number(),
            Refusal::Output => 5,
            Refusal::Possible => 6,
            Refusal::Matches => 7,
            Refusal::Values => 8,
            Refusal::Locals => 9,
            Refusal::Fits => 10,
            Refusal::Characters => 20,
            Refusal::Syntax => 21,
            Refusal::Space => 22,
            Refusal::Allowed => 32,
        }
    }
}

// The number of an outcome: 0 where nothing refuses.
pub fn outcome_number<T>(outcome: &Result<T, Refusal>) -> u8
    ensures { result ≡ outcome_number outcome.now }
{
    match outcome {
        Ok(_) => 0,
        Err(refusal) => refusal.number(),
    }
}
