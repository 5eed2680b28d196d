// Sets of variables: those below 64 as the bits of one number, and those below 65,536 as marks in 1,024 such numbers.
ghost use Rattle.std.specs.Prelude.{◌≡◌, ◌-◌, ◌<◌, ◌≤◌, ◌^◌, eqb};
ghost use Rattle.records.specs.Gate.Sets.{has_variable, with_variable, is_marked, marked};

// The set with the variable x in it.
pub fn with_variable(set: u64, x: usize) -> u64
    requires { x < 64 }
    ensures { result ≡ with_variable set x }
{
    set | 1 << x
}

// Whether the variable x is in the set.
pub fn has_variable(set: u64, x: usize) -> bool
    requires { x < 64 }
    ensures { result ≡ has_variable set x }
{
    (set >> x) % 2 == 1
}

// Whether the set is the full one, of the variables 0 to v - 1.
pub fn is_full(set: u64, v: usize) -> bool
    requires { v ≤ 64 }
    ensures { result ≡ eqb set (2 ^ v - 1) }
{
    if v == 64 {
        return set == u64::MAX;
    }
    set == (1 << v) - 1
}

// How many words have a bit for each variable.
pub const MARK_WORDS: usize = 1024;

// Marks on variables below 65,536.
#[derive(Clone, Copy)]
pub struct VariableMarks {
    pub words: [u64; MARK_WORDS],
}

impl VariableMarks {
    // Mark the variable x.
    pub fn mark(&mut self, x: usize)
        requires { x < 65536 }
        ensures { self.new.words ≡ marked self.old.words x }
    {
        self.words[x / 64] = with_variable(self.words[x / 64], x % 64);
    }

    // Whether the variable x is marked.
    pub fn is_marked(&self, x: usize) -> bool
        requires { x < 65536 }
        ensures { result ≡ is_marked self.now.words x }
    {
        has_variable(self.words[x / 64], x % 64)
    }
}
