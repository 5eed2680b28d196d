// The cases of an input, one after another.
ghost use Rattle.case_io.specs.Cases.{RunFrom};

// A proved loop has to end, so the number of cases has a limit.
pub const MOST_CASES: u64 = 10000;

// Runs each case, given its ordinal from 1 on, until one is not there.
pub fn each_case<F: Fn(u64) -> Option<()>>(run: F)
    requires { F.IsAlwaysCallable run }
    ensures { RunFrom (F.post run) 1 9999 }
{
    for ordinal in 1..MOST_CASES {
        if run(ordinal).is_none() {
            return;
        }
    }
}
