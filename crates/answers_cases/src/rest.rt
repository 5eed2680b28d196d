// The bytes of an output that nothing is written to.
ghost use Rattle.std.specs.Prelude.{◌≡◌};
ghost use Rattle.answers_cases.specs.Rest.{as_lent};

// Every byte of an output that is lent.
pub const LENT: u8 = 0xA5;

// How many bytes are as they were lent, up to the first that is not.
pub fn as_lent(bytes: &[u8]) -> usize
    ensures { result ≡ as_lent bytes.now }
{
    bytes.iter().take_while(|b| **b == LENT).count()
}
