// What a token does in its clause.
ghost use Rattle.std.specs.Prelude.{cond, ◌≡◌};
ghost use Rattle.reader.specs.Items.Items.{position, word_role, mark_role, stop_role, role_of};
ghost use Rattle.reader.specs.Items.Roles.{name_role, variable_role, end_role};
ghost use Rattle.reader.specs.declared.roles.Role.TheVariants.{GoalConstant};

use text::table::Mode;
use text::tokens::Kind;

#[derive(Clone, Copy)]
pub enum Role {
    Variable,
    Constant,
    Functor,
    GoalVariable,
    GoalConstant,
    GoalFunctor,
    Truth,
    Failure,
    Head,
    HeadFunctor,
    Shut,
    Next,
    And,
    Or,
    Equal,
    Open,
    Close,
    Neck,
    Fact,
    Rule,
}

impl Role {
    // Whether it has a name.
    pub(crate) fn takes_name(self) -> bool
        ensures { result ≡ name_role self }
    {
        matches!(
            self,
            Role::Constant
                | Role::Functor
                | Role::GoalConstant
                | Role::GoalFunctor
                | Role::Head
                | Role::HeadFunctor
        )
    }

    pub(crate) fn is_variable(self) -> bool
        ensures { result ≡ variable_role self }
    {
        matches!(self, Role::Variable | Role::GoalVariable)
    }

    // Whether its clause ends with it.
    pub(crate) fn is_end(self) -> bool
        ensures { result ≡ end_role self }
    {
        matches!(self, Role::Fact | Role::Rule)
    }
}

// The role of a word: one where a clause starts, one where a goal does, and one anywhere else.
fn word_role(mode: Mode, head: Role, goal: Role, other: Role) -> Role
    ensures { result ≡ word_role (position mode) head goal other }
{
    match mode {
        Mode::Clause => head,
        Mode::Goal => goal,
        _ => other,
    }
}

// The role of a mark: one behind an argument, and one anywhere else.
fn mark_role(mode: Mode, argument: Role, other: Role) -> Role
    ensures { result ≡ mark_role (position mode) argument other }
{
    match mode {
        Mode::Rest(_) => argument,
        _ => other,
    }
}

fn stop_role(mode: Mode) -> Role
    ensures { result ≡ stop_role (position mode) }
{
    match mode {
        Mode::Headed => Role::Fact,
        _ => Role::Rule,
    }
}

// The role of true or fail where a goal starts: a name where = comes next, else the goal of that name.
fn goal_role(equals: bool, goal: Role) -> Role
    ensures { result ≡ cond equals GoalConstant goal }
{
    if equals { Role::GoalConstant } else { goal }
}

// The role of a token behind a mode, by its kind and whether = comes next.
pub fn role_at(mode: Mode, kind: Kind, equals: bool) -> Role
    ensures { result ≡ role_of (position mode) kind equals }
{
    let constant = Role::Constant;
    match kind {
        Kind::Name => word_role(mode, Role::Head, Role::GoalConstant, constant),
        Kind::True => word_role(mode, constant, goal_role(equals, Role::Truth), constant),
        Kind::Fail => word_role(mode, constant, goal_role(equals, Role::Failure), constant),
        Kind::Variable => word_role(mode, Role::Variable, Role::GoalVariable, Role::Variable),
        Kind::Number => word_role(mode, constant, Role::GoalConstant, constant),
        Kind::Functor => word_role(mode, Role::HeadFunctor, Role::GoalFunctor, Role::Functor),
        Kind::Open => Role::Open,
        Kind::Close => mark_role(mode, Role::Shut, Role::Close),
        Kind::Comma => mark_role(mode, Role::Next, Role::And),
        Kind::Semicolon => Role::Or,
        Kind::Equals => Role::Equal,
        Kind::Stop => stop_role(mode),
        Kind::Neck | Kind::Wrong | Kind::End => Role::Neck,
    }
}
