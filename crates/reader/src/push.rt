// Bytes in front of those that stand at the end of a buffer: each writer is told where those start, and tells where its own do. Where a byte no longer fits
// it is lost, and the place is 0.
ghost use Rattle.std.specs.Prelude.{[], ◌∷◌, ◌≤◌, length};
ghost use Rattle.records.specs.Format.Encode.{word};
ghost use Rattle.reader.specs.Emit.Cells.{due as due_byte, headed, shown_clause};
ghost use Rattle.reader.specs.Emit.Emits.{Pushes};

use records::kinds::VARIABLE;

// One byte.
pub fn push(out: &mut [u8], at: usize, b: u8) -> usize
    requires { at ≤ length out.old }
    ensures { Pushes out.old at (b ∷ []) out.new result }
{
    if at == 0 {
        return 0;
    }
    out[at - 1] = b;
    at - 1
}

// One byte, where it is due.
pub fn push_due(out: &mut [u8], at: usize, due: bool, b: u8) -> usize
    requires { at ≤ length out.old }
    ensures { Pushes out.old at (due_byte due b []) out.new result }
{
    if due {
        return push(out, at, b);
    }
    at
}

// A two-byte number; of a greater one its low half, so no `u16::try_from`.
fn push_word(out: &mut [u8], at: usize, n: usize) -> usize
    requires { at ≤ length out.old }
    ensures { Pushes out.old at (word n) out.new result }
{
    let low = push(out, at, (n % 256) as u8);
    push(out, low, (n / 256 % 256) as u8)
}

pub fn push_variable(out: &mut [u8], at: usize, v: usize) -> usize
    requires { at ≤ length out.old }
    ensures { Pushes out.old at (0x01 ∷ word v) out.new result }
{
    let number = push_word(out, at, v);
    push(out, number, VARIABLE)
}

// A symbol or a predicate with its kind and its arity.
pub fn push_symbol(out: &mut [u8], at: usize, kind: u8, n: usize, k: u8) -> usize
    requires { at ≤ length out.old }
    ensures { Pushes out.old at (headed kind n k []) out.new result }
{
    let arity = push(out, at, k);
    let number = push_word(out, arity, n);
    push(out, number, kind)
}

// What a clause starts with: predicate, arity and variables.
pub fn push_clause(out: &mut [u8], at: usize, p: usize, k: u8, v: u8) -> usize
    requires { at ≤ length out.old }
    ensures { Pushes out.old at (shown_clause p k v []) out.new result }
{
    let variables = push(out, at, v);
    let arity = push(out, variables, k);
    push_word(out, arity, p)
}
