//! Refutations: tokens that leave no box of a decision.

ghost use Rattle.std.specs.Prelude.{◌≡◌, ◌<◌, ◌^◌, length, IfOk, IsTrue};
ghost use Rattle.std.specs.List.{list_all};
ghost use Rattle.decomposition.specs.Graph.{edge_count, is_run};
ghost use Rattle.decomposition.specs.Instance.{greatest_hi};
ghost use Rattle.flow_models.specs.Problem.{instance};
ghost use Rattle.cert_check.specs.Tree.{IsVerdictOf, IsRefuted, verdict_of, is_refuting, is_pending};
ghost use Rattle.cert_check.specs.declared.tree.TreeVerdict.TheVariants.{Refutes};

use dag_net::Net;
use decomposition::{Decision, Token};
use flow_models::Problem;
use refute_tree::Front;
use std::alloc::{AllocError, Global};

/// What a list of tokens is for a decision.
#[derive(Clone, Copy, Debug, PartialEq, Eq)]
pub enum TreeVerdict {
    /// Every token is legal in turn, and no box is left.
    Refutes,
    /// Every token is legal in turn, and so many boxes are left, at least one.
    Pending(usize),
    /// The first token that is not legal stands at this place, counted from 0. One that is left over is not legal.
    Illegal(usize),
}

impl TreeVerdict {
    /// Whether the tokens refute.
    pub fn refutes(self) -> bool
        ensures { result ≡ is_refuting self }
    {
        matches!(self, TreeVerdict::Refutes)
    }

    /// Whether the tokens are legal and leave a box.
    pub fn leaves_open(self) -> bool
        ensures { result ≡ is_pending self }
    {
        matches!(self, TreeVerdict::Pending(_))
    }
}

/// The verdict where every token is legal and so many boxes are left.
fn verdict_of(left: usize) -> TreeVerdict
    ensures { result ≡ verdict_of left }
{
    match left {
        0 => TreeVerdict::Refutes,
        n => TreeVerdict::Pending(n),
    }
}

/// Applies the tokens in turn to the root box, and chooses none. The three verdicts exclude each other, so each comes
/// exactly where it is true; where the tokens refute, no answer has at most so many paths and an error within the limit.
pub fn check_tree(
    alloc: Global,
    net: &Net,
    p: &Problem,
    d: &Decision,
    tokens: &[Token],
) -> Result<TreeVerdict, AllocError>
    requires ranged { length p.now.ranges ≡ edge_count net.now }
    requires rules { IsTrue (list_all (is_run net.now) p.now.rules) }
    requires cap { p.now.cap ≡ greatest_hi p.now.ranges }
    requires few { length tokens.now < 2 ^ 32 }
    ensures exact { IfOk result (IsVerdictOf (instance net.now p.now) d.now tokens.now) }
    ensures refutes { IfOk result (λ v. v ≡ Refutes → IsRefuted (instance net.now p.now) d.now) }
{
    let mut front = Front::root(alloc, net, p, d, tokens.len() as u32)?;
    for (k, &token) in tokens.iter().enumerate() {
        if !front.apply(token) {
            return Ok(TreeVerdict::Illegal(k));
        }
    }
    Ok(verdict_of(front.left()))
}
