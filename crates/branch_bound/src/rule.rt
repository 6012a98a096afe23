//! The rule token: the one token that the search applies at a box.

ghost use Rattle.std.specs.Prelude.{◌≡◌};
ghost use Rattle.decomposition.specs.declared.Token.TheVariants.{Split, Step};
ghost use Rattle.branch_bound.specs.Rule.{first_taken, rule_of, HasSlots};

use decomposition::Token;
use refute_tree::Front;

/// The step of the first slot that can step.
fn first_step(front: &Front, slots: u32) -> Option<Token>
    ensures { result ≡ first_taken front.now Step slots }
{
    for k in 0..slots {
        if front.can_step(k) {
            return Some(Token::Step(k));
        }
    }
    None
}

/// The split of the first slot that can be split.
fn first_split(front: &Front, slots: u32) -> Option<Token>
    ensures { result ≡ first_taken front.now Split slots }
{
    for k in 0..slots {
        if front.can_split(k) {
            return Some(Token::Split(k));
        }
    }
    None
}

/// The rule token of the first box: the one that closes it, else the first step, else the first split.
pub fn rule_token(front: &Front, slots: u32) -> Option<Token>
    requires { HasSlots front.now slots }
    ensures { result ≡ rule_of front.now }
{
    if let Some(token) = front.closes() {
        return Some(token);
    }
    match first_step(front, slots) {
        Some(token) => Some(token),
        None => first_split(front, slots),
    }
}
