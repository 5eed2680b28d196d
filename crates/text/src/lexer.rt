// The first token from a place of a text on.
ghost use Rattle.std.specs.Prelude.{◌≡◌, true, false, ◌<◌, ◌≤◌, length, drop, get_or};
ghost use Rattle.text.specs.Grammar.{alphanumeric, blank};
ghost use Rattle.text.specs.Parsing.Table.{kind};
ghost use Rattle.text.specs.Tokens.Lexer.{class, mark_token as token_of_mark};
ghost use Rattle.text.specs.Tokens.Places.{starts_with, NextToken};

use crate::bytes::is_alphanumeric;
use crate::tokens::{Kind, Lexeme};
use crate::words::{blanks_end, functor_kind, word_end, word_kind};
use records::put::Range;

// Whether the byte b stands at a place.
fn stands_at(s: &[u8], at: usize, b: u8) -> bool
    ensures { result ≡ starts_with (drop at s.now) b }
{
    s.get(at) == Some(&b)
}

// The token that starts with a letter, a digit or an underscore.
fn word_token(s: &[u8], from: usize) -> Lexeme
    requires from_in_bounds { from < length s.now }
    requires from_value { alphanumeric (get_or s.now from 0) ≡ true }
    ensures { NextToken s.now from result }
{
    let to = word_end(s, from);
    let word = Range { from, to };
    if stands_at(s, to, b'(') {
        let kind = functor_kind(s[from]);
        return Lexeme {
            kind,
            word,
            next: to + 1,
        };
    }
    let kind = word_kind(&s[from..to]);
    Lexeme {
        kind,
        word,
        next: to,
    }
}

// The kind of the mark b, where it is one byte long.
fn mark_kind(b: u8) -> Kind
    ensures { result ≡ kind (token_of_mark (class b)) }
{
    match b {
        b'(' => Kind::Open,
        b')' => Kind::Close,
        b',' => Kind::Comma,
        b';' => Kind::Semicolon,
        b'=' => Kind::Equals,
        b'.' => Kind::Stop,
        _ => Kind::Wrong,
    }
}

// The token that starts with a mark, or with a byte that no token may start with.
fn mark_token(s: &[u8], from: usize) -> Lexeme
    requires from_in_bounds { from < length s.now }
    requires from_value { alphanumeric (get_or s.now from 0) ≡ false }
    requires from_value_2 { blank (get_or s.now from 0) ≡ false }
    ensures { NextToken s.now from result }
{
    let b = s[from];
    let word = Range { from, to: from };
    if b == b':' && stands_at(s, from + 1, b'-') {
        return Lexeme {
            kind: Kind::Neck,
            word,
            next: from + 2,
        };
    }
    Lexeme {
        kind: mark_kind(b),
        word,
        next: from + 1,
    }
}

// The first token from `at` on.
pub fn next_token(s: &[u8], at: usize) -> Lexeme
    requires { at ≤ length s.now }
    ensures { NextToken s.now at result }
{
    let from = blanks_end(s, at);
    if from == s.len() {
        return Lexeme {
            kind: Kind::End,
            word: Range { from, to: from },
            next: from,
        };
    }
    if is_alphanumeric(s[from]) {
        return word_token(s, from);
    }
    mark_token(s, from)
}
