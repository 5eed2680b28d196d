// What each token of a text does in its clause: a table of roles, by the token's place.
ghost use Rattle.std.specs.Prelude.{◌≡◌, ◌+◌, ◌≤◌, length};
ghost use Rattle.text.specs.Tokens.Places.{tokens_from};
ghost use Rattle.reader.specs.Items.Items.{Position, role_of, equals_next};
ghost use Rattle.reader.specs.Items.Sorted.{Sorted};

use crate::roles::{Role, role_at};
use text::lexer::next_token;
use text::table::{State, look};
use text::tokens::Kind;

// Whether = is the first token from `at` on, where the role of a token of that kind hangs on it.
fn equals_behind(s: &[u8], at: usize, kind: Kind) -> bool
    requires { at ≤ length s.now }
    ensures { (z : Position) → role_of z kind result ≡ role_of z kind (equals_next (tokens_from s.now at)) }
{
    match kind {
        Kind::True | Kind::Fail => matches!(next_token(s, at).kind, Kind::Equals),
        _ => false,
    }
}

// The role of each token, and how many there are.
pub fn sort(s: &[u8], start: State, roles: &mut [Role]) -> usize
    requires s_len_bound { (length s.now ≤ 65535) × (65535 ≤ length roles.old) }
    requires goals_bound { start.terms + start.goals ≤ 0 }
    ensures { Sorted s.now start roles.old roles.new result }
{
    let mut state = start;
    let mut at = 0;
    let mut count = 0;
    loop {
        let t = next_token(s, at);
        match t.kind {
            Kind::End => return count,
            kind => {
                let equals = equals_behind(s, t.next, kind);
                roles[count] = role_at(state.mode, kind, equals);
                state = look(state, kind);
            }
        }
        at = t.next;
        count += 1;
    }
}
