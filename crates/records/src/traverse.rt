// A traversal over terms and goals that stand somewhere, a node at a time and without recursion.
ghost use Rattle.std.specs.Prelude.{◌≡◌, ◌+◌, ◌-◌, ◌<◌, ◌^◌};
ghost use Rattle.records.specs.Ends.Traversal.{traverse};
ghost use Rattle.records.specs.Ends.Steps.{On, next_step, after_goal, raised, Tops};

use crate::heads::{GoalHead, TermHead, goal_head, term_head};

// A place in a traversal: the terms, and then the goals, that are still to come from pos on.
#[derive(Clone, Copy)]
pub struct Cursor {
    pub pos: usize,
    pub terms: usize,
    pub goals: usize,
}

// A variable or another node, with the place after it.
#[derive(Clone, Copy)]
pub enum NodeStep {
    Variable(usize, Cursor),
    Other(Cursor),
}

impl Cursor {
    // A term that stands at a place.
    pub fn term(pos: usize) -> Cursor
        ensures { result ≡ record { pos = pos; terms = 1; goals = 0 } }
    {
        Cursor {
            pos,
            terms: 1,
            goals: 0,
        }
    }

    // A goal that stands at a place.
    pub fn goal(pos: usize) -> Cursor
        ensures { result ≡ record { pos = pos; terms = 0; goals = 1 } }
    {
        Cursor {
            pos,
            terms: 0,
            goals: 1,
        }
    }
}

fn next_term(s: &[u8], pos: usize, terms: usize, goals: usize) -> Option<NodeStep>
    requires terms_nonzero { 0 < terms }
    requires on { On (traverse s.now pos terms goals) }
    ensures { result ≡ next_step s.now pos terms goals }
{
    match term_head(s, pos)? {
        TermHead::Variable(v) => Some(NodeStep::Variable(
            v,
            Cursor {
                pos: pos + 3,
                terms: terms - 1,
                goals,
            },
        )),
        TermHead::Symbol(_, k) => Some(NodeStep::Other(Cursor {
            pos: pos + 4,
            terms: k + (terms - 1),
            goals,
        })),
    }
}

// After a goal's head of so many bytes, with the terms and goals that it announces.
fn after_goal(pos: usize, size: usize, terms: usize, more: usize, goals: usize) -> Option<NodeStep>
    requires size_bound { pos + size < 2 ^ 64 }
    requires goals_bound { more + (goals - 1) < 2 ^ 64 }
    requires goals_nonzero { 0 < goals }
    ensures { result ≡ after_goal pos size terms more goals }
{
    Some(NodeStep::Other(Cursor {
        pos: pos + size,
        terms,
        goals: more + (goals - 1),
    }))
}

fn next_goal(s: &[u8], pos: usize, goals: usize) -> Option<NodeStep>
    requires goals_nonzero { 0 < goals }
    requires on { On (traverse s.now pos 0 goals) }
    ensures { result ≡ next_step s.now pos 0 goals }
{
    match goal_head(s, pos)? {
        GoalHead::Truth | GoalHead::Failure => after_goal(pos, 1, 0, 0, goals),
        GoalHead::Equal => after_goal(pos, 1, 2, 0, goals),
        GoalHead::Conj | GoalHead::Disj => after_goal(pos, 1, 0, 2, goals),
        GoalHead::Atom(_, k) => after_goal(pos, 4, k, 0, goals),
    }
}

// One node of a traversal, none where nothing more is to come.
pub fn next_node(s: &[u8], c: Cursor) -> Option<NodeStep>
    requires { On (traverse s.now c.pos c.terms c.goals) }
    ensures { result ≡ next_step s.now c.pos c.terms c.goals }
{
    if 0 < c.terms {
        next_term(s, c.pos, c.terms, c.goals)
    } else if 0 < c.goals {
        next_goal(s, c.pos, c.goals)
    } else {
        None
    }
}

// One more than the greatest variable of a traversal, or 0, and where the traversal ends.
#[derive(Clone, Copy)]
pub struct Top {
    pub top: usize,
    pub end: usize,
}

pub fn variables_top(s: &[u8], start: Cursor) -> Top
    requires { On (traverse s.now start.pos start.terms start.goals) }
    ensures { Tops (traverse s.now start.pos start.terms start.goals) result }
{
    let mut c = start;
    let mut top: usize = 0;
    while let Some(step) = next_node(s, c) {
        match step {
            NodeStep::Variable(v, next) => {
                top = raise(top, v);
                c = next;
            }
            NodeStep::Other(next) => c = next,
        }
    }
    Top { top, end: c.pos }
}

fn raise(top: usize, v: usize) -> usize
    requires { v < 65536 }
    ensures { result ≡ raised top v }
{
    top.max(v + 1)
}
