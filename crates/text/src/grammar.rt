// Question 21: whether a text is one of clauses, or of a goal. It takes two counts and no memory, for a text of any length.
ghost use Rattle.std.specs.Prelude.{◌≡◌};
ghost use Rattle.text.specs.Parsing.Questions.{grammatical as clauses_grammatical, goal_grammatical};

use crate::lexer::next_token;
use crate::table::{Mode, State, is_final, look};
use crate::tokens::Kind;

pub fn grammatical(s: &[u8]) -> bool
    ensures { result ≡ clauses_grammatical s.now }
{
    let mut state = State::start(Mode::Clause);
    let mut at = 0;
    loop {
        let t = next_token(s, at);
        match t.kind {
            Kind::End => return is_final(state.mode),
            kind => state = look(state, kind),
        }
        at = t.next;
    }
}

// A goal has no full stop; the end of the text stands for it. Apart from `grammatical`: the two loops refuse and end otherwise, and one of both would ask twice a
// turn which it is.
pub fn goal_grammatical(s: &[u8]) -> bool
    ensures { result ≡ goal_grammatical s.now }
{
    let mut state = State::start(Mode::Goal);
    let mut at = 0;
    loop {
        let t = next_token(s, at);
        match t.kind {
            Kind::End => return is_final(look(state, Kind::Stop).mode),
            Kind::Stop => return false,
            kind => state = look(state, kind),
        }
        at = t.next;
    }
}
