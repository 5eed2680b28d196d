// The classes of bytes, and question 20.
ghost use Rattle.std.specs.Prelude.{◌≡◌};
ghost use Rattle.records.specs.Gate.RecordRules.{every};
ghost use Rattle.text.specs.Grammar.{alphanumeric, blank, mark, text_byte};

// By `|`: most bytes of a text are letters, and of these it costs one test. With `||` a letter passes three.
pub fn is_alphanumeric(b: u8) -> bool
    ensures { result ≡ alphanumeric b }
{
    b.is_ascii_lowercase() | (b.is_ascii_uppercase() | (b.is_ascii_digit() | (b == b'_')))
}

pub fn is_blank(b: u8) -> bool
    ensures { result ≡ blank b }
{
    matches!(b, b'\t' | b'\n' | b'\r' | b' ')
}

fn is_mark(b: u8) -> bool
    ensures { result ≡ mark b }
{
    matches!(b, b'(' | b')' | b',' | b';' | b'=' | b'.' | b':' | b'-')
}

fn is_allowed(b: u8) -> bool
    ensures { result ≡ text_byte b }
{
    is_alphanumeric(b) || is_blank(b) || is_mark(b)
}

// Question 20.
pub fn all_allowed(s: &[u8]) -> bool
    ensures { result ≡ every text_byte s.now }
{
    s.iter().all(|b| is_allowed(*b))
}
