// One more than the greatest variable of a stack, or 0 if there is none: its members are passed one after another.
ghost use Rattle.std.specs.Prelude.{◌≡◌};
ghost use Rattle.records.specs.Format.Encode.{each};
ghost use Rattle.records.specs.Gate.RecordRules.{ancestor_variables};
ghost use Rattle.records.specs.Ends.Above.{above};
ghost use Rattle.terms.specs.Body.Body.{pair_variables, bet_variables};
ghost use Rattle.terms.specs.Standing.Accepted.{event_frame};
ghost use Rattle.terms.specs.Standing.Frames.{AncestorAt, BetAt, PairAt, PairsAt};
ghost use Rattle.terms.specs.Body.Tops.{TopOf, MemberAt, StackAt, member_variables, members_variables};

use records::heads::{AncestorHead, BetHead, ancestor_head, bet_head, word_at};
use records::places::Places;
use records::traverse::{Cursor, Top, variables_top};

// Where an event's goal and its stacks stand, and how many parts a stack has.
#[derive(Clone, Copy)]
pub struct Frame {
    pub goal: usize,
    pub ancestors: usize,
    pub depth: usize,
    pub bets: usize,
    pub height: usize,
}

// The frame of an event's own goal.
pub fn event_frame(places: Places) -> Frame
    ensures { result ≡ event_frame places }
{
    let goal = places.goal;
    let ancestors = places.ancestors;
    let bets = places.bets;
    Frame {
        goal: goal.from,
        ancestors: ancestors.from,
        depth: ancestors.count,
        bets: bets.from,
        height: bets.count,
    }
}

// One of an event's two stacks. No closure tells how a member is read: the definition of their variables goes over the same two kinds.
#[derive(Clone, Copy)]
pub enum StackKind {
    Ancestors,
    Bets,
}

// One more than the greatest variable of an ancestor, and where it ends.
fn ancestor_top(event: &[u8], at: usize) -> Top
    requires { AncestorAt event.now at }
    ensures { (a : AncestorAt event.now at) → TopOf (ancestor_variables a.item) a.end result }
{
    let Some(head) = ancestor_head(event, at) else {
        return Top { top: 0, end: at };
    };
    match head {
        AncestorHead::Called(_, k) => variables_top(
            event,
            Cursor {
                pos: at + 4,
                terms: k,
                goals: 0,
            },
        ),
        AncestorHead::InConj(_) | AncestorHead::InDisj(_) => variables_top(
            event,
            Cursor {
                pos: at + 2,
                terms: 0,
                goals: 2,
            },
        ),
    }
}

// The same for a pair of a unifier: its variable and those of its term.
fn pair_top(event: &[u8], at: usize) -> Top
    requires { PairAt event.now at }
    ensures { (p : PairAt event.now at) → TopOf (pair_variables p.item) p.end result }
{
    let Some(v) = word_at(event, at) else {
        return Top { top: 0, end: at };
    };
    let t = variables_top(event, Cursor::term(at + 2));
    Top {
        top: (v + 1).max(t.top),
        end: t.end,
    }
}

// Of n pairs.
fn pairs_top(event: &[u8], at: usize, n: usize) -> Top
    requires { PairsAt event.now at n }
    ensures { (p : PairsAt event.now at n) → TopOf (each pair_variables p.items) p.end result }
{
    let mut pos = at;
    let mut top: usize = 0;
    for _ in 0..n {
        let pair = pair_top(event, pos);
        top = top.max(pair.top);
        pos = pair.end;
    }
    Top { top, end: pos }
}

// Of a bet.
fn bet_top(event: &[u8], at: usize) -> Top
    requires { BetAt event.now at }
    ensures { (b : BetAt event.now at) → TopOf (bet_variables b.item) b.end result }
{
    let Some(head) = bet_head(event, at) else {
        return Top { top: 0, end: at };
    };
    match head {
        BetHead::Unifier(n) => pairs_top(event, at + 3, n),
        BetHead::Or(_) => Top {
            top: 0,
            end: at + 2,
        },
        BetHead::By => variables_top(event, Cursor::goal(at + 1)),
    }
}

fn member_top(event: &[u8], at: usize, stack: StackKind) -> Top
    requires { MemberAt stack event.now at }
    ensures { (a : MemberAt stack event.now at) → TopOf (member_variables stack a.item) a.end result }
{
    match stack {
        StackKind::Ancestors => ancestor_top(event, at),
        StackKind::Bets => bet_top(event, at),
    }
}

// One more than the greatest variable of a stack of n members, or 0 if there is none.
pub fn stack_top(event: &[u8], at: usize, stack: StackKind, n: usize) -> usize
    requires { StackAt stack event.now at n }
    ensures { (u : StackAt stack event.now at n) → result ≡ above (members_variables stack u.items) }
{
    let mut pos = at;
    let mut top: usize = 0;
    for _ in 0..n {
        let member = member_top(event, pos, stack);
        top = top.max(member.top);
        pos = member.end;
    }
    top
}
