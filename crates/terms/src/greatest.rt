// The greatest variable of an event, and in which part it is met first: bets are searched, then the goal, then the ancestors.
ghost use Rattle.std.specs.Prelude.{List, ◌≡◌, ℕ, ◌≤◌};
ghost use Rattle.records.specs.Ends.Above.{above};
ghost use Rattle.terms.specs.Body.Body.{next_variable};
ghost use Rattle.terms.specs.Body.Greatest.{greatest_of, greatest_variable, next_after};
ghost use Rattle.terms.specs.Standing.Frames.{FrameAt};

use crate::variables::{Frame, StackKind, stack_top};
use records::traverse::{Cursor, variables_top};

// A part of an event that has variables.
#[derive(Clone, Copy)]
pub enum Part {
    Bets,
    Goal,
    Ancestors,
}

// The greatest variable, and the first part that holds it.
#[derive(Clone, Copy)]
pub struct Greatest {
    pub part: Part,
    pub variable: usize,
}

// The first of three parts that holds the greatest variable; each is given by one more than its own greatest, or by 0.
fn first_greatest(bets: usize, goal: usize, ancestors: usize) -> Option<Greatest>
    ensures { (b g u : List ℕ) → bets ≡ above b → goal ≡ above g → ancestors ≡ above u → result ≡ greatest_of b g u }
{
    let top = bets.max(goal).max(ancestors);
    if top == 0 {
        return None;
    }
    let variable = top - 1;
    if bets == top {
        return Some(Greatest {
            part: Part::Bets,
            variable,
        });
    }
    if goal == top {
        return Some(Greatest {
            part: Part::Goal,
            variable,
        });
    }
    Some(Greatest {
        part: Part::Ancestors,
        variable,
    })
}

pub fn greatest_variable(event: &[u8], frame: Frame) -> Option<Greatest>
    requires { FrameAt event.now frame }
    ensures { (f : FrameAt event.now frame) → result ≡ greatest_variable f.goal.item f.ancestors.items f.bets.items }
{
    let bets = stack_top(event, frame.bets, StackKind::Bets, frame.height);
    let goal = variables_top(
        event,
        Cursor {
            pos: frame.goal,
            terms: 0,
            goals: 1,
        },
    );
    let ancestors = stack_top(event, frame.ancestors, StackKind::Ancestors, frame.depth);
    first_greatest(bets, goal.top, ancestors)
}

// One more than the greatest variable, 0 where there is none.
fn next_after(greatest: Option<Greatest>) -> usize
    requires { next_after greatest ≤ 65536 }
    ensures { result ≡ next_after greatest }
{
    match greatest {
        Some(g) => g.variable + 1,
        None => 0,
    }
}

// The first new variable.
pub fn next_variable(event: &[u8], frame: Frame) -> usize
    requires { FrameAt event.now frame }
    ensures { (f : FrameAt event.now frame) → result ≡ next_variable f.goal.item f.ancestors.items f.bets.items }
{
    next_after(greatest_variable(event, frame))
}
