//! The boxes after a token in place of the first one.

ghost use Rattle.std.specs.Prelude.{◌≡◌, ◌+◌, ◌/◌, ◌<◌, ◌^◌, length, false, true, MatchOption};
ghost use Rattle.decomposition.specs.Instance.{Instance};
ghost use Rattle.refute_tree.specs.Kept.{Replaces};
ghost use Rattle.refute_tree.specs.Choices.{place_after};
ghost use Rattle.refute_tree.specs.OneBox.{place_of, IsOneBox, Comes};
ghost use Rattle.refute_tree.specs.Ends.{GoWith};
ghost use Rattle.refute_tree.specs.Sums.{AreBounds};

use crate::beside::Beside;
use crate::next::first_next;
use crate::one_box::OneBox;
use dag_net::Net;
use decomposition::Token;

/// The middle of two bounds, rounded down.
fn middle(lower: u64, upper: u64) -> u64
    requires { lower < upper }
    ensures middle { result ≡ (lower + upper) / 2 }
    ensures fits { result + 1 < 2 ^ 64 }
{
    lower + (upper - lower) / 2
}

/// Puts the boxes after a token in place of the first; false where no box is left. The sums are to be mended.
pub fn replace_first(net: &Net, beside: &mut Beside, one: &mut OneBox, token: Token) -> bool
    requires kept { IsOneBox net.now one.old }
    requires fits { Replaces net.now (place_of one.old).box token }
    requires beside { GoWith net.now beside.old.known.rules.now one.old.links beside.old }
    requires bounds { AreBounds (place_of one.old).box beside.old.sums }
    requires room { length one.old.choices.items < one.old.links.room }
    ensures place { (i : Instance) → i.graph ≡ net.now →
        MatchOption (place_after i (place_of one.old) token) (result ≡ false) (λ p. (result ≡ true) × Comes net.now one.old one.new p) }
    ensures beside { GoWith net.now beside.old.known.rules.now one.new.links beside.new }
{
    match token {
        Token::Gap | Token::Miss(_) => one.undo(net, beside),
        Token::Split(slot) => {
            let k = slot as usize;
            let middle = middle(beside.sums.lowers[k], beside.sums.uppers[k]);
            one.split(net, slot, middle);
            true
        }
        Token::Step(slot) => {
            let edge = first_next(net, &one.links, slot).unwrap();
            one.step(net, beside, slot, edge);
            true
        }
    }
}
