//! What a problem is answered, model by model.
ghost use Rattle.std.specs.Prelude.{◌≡◌, ◌≤◌, length, IfOk};
ghost use Rattle.decomposition.specs.Instance.{IsInstance, greatest_hi};
ghost use Rattle.flow_models.specs.Problem.{instance};
ghost use Rattle.report_terms.specs.NetFacts.{IsFoundIn};
ghost use Rattle.flow_solver.specs.Asked.{MayBeAsked, most_rules};
ghost use Rattle.flow_solver.specs.Right.{SolvedRight};

use crate::asked::Asked;
use crate::exact::solve_exact;
use crate::interval::solve_interval;
use crate::least_error::solve_least_error;
use dag_net::{Mode, Net};
use flow_models::Problem;
use report_terms::Solved;
use std::alloc::{AllocError, Global};

/// Solves a problem in the model that is asked for.
pub fn solve(
    alloc: Global,
    net: &Net,
    problem: &Problem,
    asked: Asked,
) -> Result<Solved, AllocError>
    requires ready { MayBeAsked asked }
    requires valid { IsInstance asked.mode (instance net.now problem.now) }
    requires cap { problem.now.cap ≡ greatest_hi problem.now.ranges }
    requires few_rules { length problem.now.rules ≤ most_rules }
    ensures found { IfOk result (IsFoundIn net.now) }
    ensures right { IfOk result (SolvedRight asked (instance net.now problem.now)) }
{
    match asked.mode {
        Mode::Exact => solve_exact(alloc, net, problem, asked),
        Mode::Interval => solve_interval(alloc, net, problem, asked),
        Mode::Abs { k } => solve_least_error(alloc, net, problem, asked, k),
    }
}
