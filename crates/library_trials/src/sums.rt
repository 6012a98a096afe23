//! What the slots of the first box put on an edge, before a split and in each half.

ghost use Rattle.std.specs.Prelude.{◌≡◌, ◌≢◌, ◌+◌, ◌<◌, ◌≤◌, []};
ghost use Rattle.decomposition.specs.Graph.{edge_count};

use crate::problems::problem;
use dag_net::Net;
use decomposition::{Decision, Token};
use refute_tree::Front;
use std::test::Fail;

/// Whether the token is legal, and applied. The instance and the room stay as they are.
fn is_applied(front: &mut Front, token: Token) -> bool
    requires room { front.old.used < front.old.room }
    ensures instance { front.new.instance ≡ front.old.instance }
    ensures room { front.new.room ≡ front.old.room }
    ensures used { front.new.used ≤ front.old.used + 1 }
{
    front.apply(token)
}

/// Whether the slots of the first box put these least and greatest weights on the first two edges.
fn are_put(front: &Front, weights: [(u128, u128); 2]) -> bool
    requires some { front.now.boxes ≢ [] }
    requires edges { 2 ≤ edge_count front.now.instance.graph }
{
    for edge in 0..2 {
        let sums = front.sums(edge);
        if (sums.low, sums.high) != weights[edge as usize] {
            return false;
        }
    }
    true
}

#[test]
fn each_half_of_a_slot_has_its_own_sums(rt: HostRuntime) -> Result<(), Fail> {
    let alloc = rt.alloc();
    let net = Net::build(alloc, 3, &[(0, 1), (1, 2)])?;
    let p = problem(alloc, &net, &[(3, 3), (5, 5)])?;
    let d = Decision {
        slots: 1,
        limit: Some(1),
    };
    let mut front = Front::root(alloc, &net, &p, &d, 8)?;
    assert!(rt; net.edges() == 2);
    assert!(rt; are_put(&front, [(0, 5), (0, 5)]));
    assert!(rt; is_applied(&mut front, Token::Step(0)));
    assert!(rt; is_applied(&mut front, Token::Split(0)));
    assert!(rt; front.left() == 2);
    assert!(rt; are_put(&front, [(0, 2), (0, 2)]));
    assert!(rt; is_applied(&mut front, Token::Gap));
    assert!(rt; front.left() == 1);
    assert!(rt; are_put(&front, [(3, 5), (0, 5)]));
    Ok(())
}
