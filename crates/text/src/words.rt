// Blanks and words of a text: where they end, and what kind a word has.
ghost use Rattle.std.specs.Prelude.{◌≡◌, true, ◌≤◌, length};
ghost use Rattle.records.specs.Format.Heads.{pick};
ghost use Rattle.text.specs.Grammar.{is_word, lower};
ghost use Rattle.text.specs.Parsing.Table.{name_kind, word_kind};
ghost use Rattle.text.specs.Tokens.Words.{BlanksEnd, WordEnd};
ghost use Rattle.text.specs.declared.tokens.Kind.TheVariants.{Functor, Wrong};

use crate::bytes::{is_alphanumeric, is_blank};
use crate::tokens::Kind;

// The names that are no names of their own where they stand alone.
const TRUE: &[u8] = b"true";

const FAIL: &[u8] = b"fail";

// The first place from `at` on that holds no blank.
pub fn blanks_end(s: &[u8], at: usize) -> usize
    requires { at ≤ length s.now }
    ensures { BlanksEnd s.now at result }
{
    match s[at..].iter().position(|b| !is_blank(*b)) {
        Some(n) => at + n,
        None => s.len(),
    }
}

// The first place from `at` on that holds no letter, digit or underscore.
pub fn word_end(s: &[u8], at: usize) -> usize
    requires { at ≤ length s.now }
    ensures { WordEnd s.now at result }
{
    match s[at..].iter().position(|b| !is_alphanumeric(*b)) {
        Some(n) => at + n,
        None => s.len(),
    }
}

// The kind of a name that stands alone.
fn name_kind(word: &[u8]) -> Kind
    ensures { result ≡ name_kind word.now }
{
    if word == TRUE {
        return Kind::True;
    }
    if word == FAIL {
        return Kind::Fail;
    }
    Kind::Name
}

// The kind of a word that stands alone.
pub fn word_kind(word: &[u8]) -> Kind
    requires { is_word word.now ≡ true }
    ensures { result ≡ word_kind word.now }
{
    let first = word[0];
    if first.is_ascii_lowercase() {
        return name_kind(word);
    }
    if !first.is_ascii_digit() {
        return Kind::Variable;
    }
    if word.iter().all(|b| b.is_ascii_digit()) {
        return Kind::Number;
    }
    Kind::Wrong
}

// The kind of a word that starts with b and has an opening bracket directly behind it.
pub fn functor_kind(b: u8) -> Kind
    ensures { result ≡ pick (lower b) Functor Wrong }
{
    if b.is_ascii_lowercase() {
        return Kind::Functor;
    }
    Kind::Wrong
}
