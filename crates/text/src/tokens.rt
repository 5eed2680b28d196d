// What a token is to the code: its kind, and where it stands.
use records::put::Range;

// A name, the names true and fail, a variable, a number, a name with the opening bracket directly behind it, the marks, what is no token, and the end of the text.
#[derive(Clone, Copy, PartialEq, Eq)]
pub enum Kind {
    Name,
    True,
    Fail,
    Variable,
    Number,
    Functor,
    Open,
    Close,
    Comma,
    Semicolon,
    Equals,
    Neck,
    Stop,
    Wrong,
    End,
}

// The kind of a token, its word (an empty one for a mark), and where the next token may start.
#[derive(Clone, Copy)]
pub struct Lexeme {
    pub kind: Kind,
    pub word: Range,
    pub next: usize,
}
