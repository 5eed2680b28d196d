// What may follow what in the grammar: a mode and two counts, since terms do not hold goals.
ghost use Rattle.std.specs.Prelude.{◌≡◌, ◌+◌, ◌<◌, ◌^◌};
ghost use Rattle.text.specs.Parsing.Table.{state, after, closed, stopped, shut, look_by, look, final};
ghost use Rattle.text.specs.declared.table.Mode.TheVariants.{Clause, Headed, Goal, Left, Bare, Right, Done, Term, Rest};

use crate::tokens::Kind;

// What a list of arguments belongs to: a head, an atom or the left side of an equality, or the right side of one.
#[derive(Clone, Copy)]
pub enum Place {
    Head,
    Left,
    Right,
}

// Where the reading stands: before a clause; behind a head; before a goal; behind an atom, which may become the left side of an equality; behind a variable or
// number, which must; before the right side; behind a goal; before an argument; behind an argument; outside the grammar.
#[derive(Clone, Copy)]
pub enum Mode {
    Clause,
    Headed,
    Goal,
    Left,
    Bare,
    Right,
    Done,
    Term(Place),
    Rest(Place),
    Bad,
}

// The mode, the open argument lists and the open brackets around goals.
#[derive(Clone, Copy)]
pub struct State {
    pub mode: Mode,
    pub terms: usize,
    pub goals: usize,
}

impl State {
    // Where nothing is open.
    pub fn start(mode: Mode) -> State
        ensures { result ≡ state mode 0 0 }
    {
        Self::within(mode, 0)
    }

    // Within so many brackets around goals, and no arguments.
    fn within(mode: Mode, goals: usize) -> State
        ensures { result ≡ state mode 0 goals }
    {
        State {
            mode,
            terms: 0,
            goals,
        }
    }
}

// Outside the grammar.
const BAD: State = State {
    mode: Mode::Bad,
    terms: 0,
    goals: 0,
};

fn after(p: Place) -> Mode
    ensures { result ≡ after p }
{
    match p {
        Place::Head => Mode::Headed,
        Place::Left => Mode::Left,
        Place::Right => Mode::Done,
    }
}

// A closing bracket around a goal.
fn closed(goals: usize) -> State
    ensures { result ≡ closed goals }
{
    match goals {
        0 => BAD,
        _ => State::within(Mode::Done, goals - 1),
    }
}

// A full stop.
fn stopped(goals: usize) -> State
    ensures { result ≡ stopped goals }
{
    match goals {
        0 => State::start(Mode::Clause),
        _ => BAD,
    }
}

// A closing bracket around arguments.
fn shut(p: Place, terms: usize, goals: usize) -> State
    ensures { result ≡ shut p terms goals }
{
    match terms {
        0 => BAD,
        1 => State::within(after(p), goals),
        _ => State {
            mode: Mode::Rest(p),
            terms: terms - 1,
            goals,
        },
    }
}

fn look_clause(k: Kind) -> State
    ensures { result ≡ look_by Clause 0 0 k }
{
    match k {
        Kind::Name => State::start(Mode::Headed),
        Kind::Functor => State {
            mode: Mode::Term(Place::Head),
            terms: 1,
            goals: 0,
        },
        _ => BAD,
    }
}

fn look_headed(k: Kind) -> State
    ensures { result ≡ look_by Headed 0 0 k }
{
    match k {
        Kind::Neck => State::start(Mode::Goal),
        Kind::Stop => State::start(Mode::Clause),
        _ => BAD,
    }
}

fn look_goal(goals: usize, k: Kind) -> State
    requires { goals + 1 < 2 ^ 64 }
    ensures { result ≡ look_by Goal 0 goals k }
{
    match k {
        Kind::Name | Kind::True | Kind::Fail => State::within(Mode::Left, goals),
        Kind::Variable | Kind::Number => State::within(Mode::Bare, goals),
        Kind::Functor => State {
            mode: Mode::Term(Place::Left),
            terms: 1,
            goals,
        },
        Kind::Open => State::within(Mode::Goal, goals + 1),
        _ => BAD,
    }
}

fn look_left(goals: usize, k: Kind) -> State
    ensures { result ≡ look_by Left 0 goals k }
{
    match k {
        Kind::Close => closed(goals),
        Kind::Comma | Kind::Semicolon => State::within(Mode::Goal, goals),
        Kind::Equals => State::within(Mode::Right, goals),
        Kind::Stop => stopped(goals),
        _ => BAD,
    }
}

fn look_bare(goals: usize, k: Kind) -> State
    ensures { result ≡ look_by Bare 0 goals k }
{
    match k {
        Kind::Equals => State::within(Mode::Right, goals),
        _ => BAD,
    }
}

fn look_right(goals: usize, k: Kind) -> State
    ensures { result ≡ look_by Right 0 goals k }
{
    match k {
        Kind::Name | Kind::True | Kind::Fail | Kind::Variable | Kind::Number => {
            State::within(Mode::Done, goals)
        }
        Kind::Functor => State {
            mode: Mode::Term(Place::Right),
            terms: 1,
            goals,
        },
        _ => BAD,
    }
}

fn look_done(goals: usize, k: Kind) -> State
    ensures { result ≡ look_by Done 0 goals k }
{
    match k {
        Kind::Close => closed(goals),
        Kind::Comma | Kind::Semicolon => State::within(Mode::Goal, goals),
        Kind::Stop => stopped(goals),
        _ => BAD,
    }
}

fn look_term(p: Place, terms: usize, goals: usize, k: Kind) -> State
    requires { terms + 1 < 2 ^ 64 }
    ensures { result ≡ look_by (Term p) terms goals k }
{
    match k {
        Kind::Name | Kind::True | Kind::Fail | Kind::Variable | Kind::Number => {
            State {
                mode: Mode::Rest(p),
                terms,
                goals,
            }
        }
        Kind::Functor => State {
            mode: Mode::Term(p),
            terms: terms + 1,
            goals,
        },
        _ => BAD,
    }
}

fn look_rest(p: Place, terms: usize, goals: usize, k: Kind) -> State
    ensures { result ≡ look_by (Rest p) terms goals k }
{
    match k {
        Kind::Close => shut(p, terms, goals),
        Kind::Comma => State {
            mode: Mode::Term(p),
            terms,
            goals,
        },
        _ => BAD,
    }
}

// The state behind one token more.
pub fn look(s: State, k: Kind) -> State
    requires { (s.terms + 1 < 2 ^ 64) × (s.goals + 1 < 2 ^ 64) }
    ensures { result ≡ look s k }
{
    let State { mode, terms, goals } = s;
    match mode {
        Mode::Clause => look_clause(k),
        Mode::Headed => look_headed(k),
        Mode::Goal => look_goal(goals, k),
        Mode::Left => look_left(goals, k),
        Mode::Bare => look_bare(goals, k),
        Mode::Right => look_right(goals, k),
        Mode::Done => look_done(goals, k),
        Mode::Term(p) => look_term(p, terms, goals, k),
        Mode::Rest(p) => look_rest(p, terms, goals, k),
        Mode::Bad => BAD,
    }
}

// Whether a text may end here.
pub fn is_final(m: Mode) -> bool
    ensures { result ≡ final m }
{
    matches!(m, Mode::Clause)
}
