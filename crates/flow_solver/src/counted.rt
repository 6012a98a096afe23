//! What is said of a graph whose paths are counted.
ghost use Rattle.std.specs.Prelude.{◌≡◌, ℕ, ◌<◌, [], length, false, Some, None, IfSome};
ghost use Rattle.decomposition.specs.declared.Mode.{Mode as AMode};
ghost use Rattle.decomposition.specs.declared.Mode.TheVariants.{Interval};
ghost use Rattle.decomposition.specs.Graph.{Graph};
ghost use Rattle.decomposition.specs.Instance.{Instance};
ghost use Rattle.decomposition.specs.Width.{IsAntichain, IsWidth};
ghost use Rattle.report_terms.specs.NetFacts.{AreRisingEdges, AreRisingRuns, IsCertOf, IsFoundIn, IsSmallTrail};
ghost use Rattle.report_terms.specs.declared.report.Mark.TheVariants.{Infeasible};
ghost use Rattle.flow_solver.specs.declared.asked.Asked.{Asked as Given};
ghost use Rattle.flow_solver.specs.Right.{AreListed, CountsPaths, IsCertFor, SolvedRight, is_cut};
ghost use Rattle.flow_solver.specs.Searched.{IsRaisedWithin, IsSolvedBy, floor_of};

use crate::counting::{Ending, Finding};
use dag_net::{Answer, IdLists, Ids};
use report_terms::{Cert, Mark, Solved, Trail};
use std::alloc::Global;

/// What is said by an antichain of as many edges as the width and by what the searches found.
pub fn solved_by(alloc: Global, finding: Finding, antichain: Ids, safe: Option<IdLists>) -> Solved
    ensures right { (s : Given) (i : Instance) → CountsPaths s.mode → AreListed s i safe → IsSolvedBy s.nodes s.mode i antichain finding → SolvedRight s i result }
    ensures found { (nodes : ℕ) (mode : AMode) (i : Instance) → IsSolvedBy nodes mode i antichain finding → IfSome safe (AreRisingRuns i.graph) → IsFoundIn i.graph result }
{
    match finding {
        Finding::Known { paths, ending } => known_by(paths, ending, antichain, safe),
        Finding::Crowded { edge, rules } => without_answer(alloc, Cert::Crowd(edge, rules), safe),
        Finding::Never(tree) => without_answer(alloc, Cert::Tree(tree), safe),
        Finding::Open { trail, raised } => {
            let bound = bound_by(antichain, raised);
            Solved {
                mark: Mark::Bounds,
                lower: Some(bound.lower),
                upper: None,
                paths: Answer::new(alloc),
                cert: bound.cert,
                trail: Some(trail),
                safe,
            }
        }
    }
}

/// What is said of paths, by the antichain and by why there is no search for fewer.
fn known_by(paths: Answer, ending: Ending, antichain: Ids, safe: Option<IdLists>) -> Solved
    ensures right { (s : Given) (i : Instance) → CountsPaths s.mode → AreListed s i safe → IsSolvedBy s.nodes s.mode i antichain (Finding.Known paths ending) → SolvedRight s i result }
    ensures found { (nodes : ℕ) (mode : AMode) (i : Instance) → IsSolvedBy nodes mode i antichain (Finding.Known paths ending) → IfSome safe (AreRisingRuns i.graph) → IsFoundIn i.graph result }
{
    let upper = paths.len() as u64;
    match ending {
        Ending::Width => Solved {
            mark: Mark::Optimal,
            lower: Some(antichain.len() as u64),
            upper: Some(upper),
            paths,
            cert: cert_of(antichain),
            trail: None,
            safe,
        },
        Ending::Refuted(tree) => Solved {
            mark: Mark::Optimal,
            lower: Some(upper),
            upper: Some(upper),
            paths,
            cert: Cert::Tree(tree),
            trail: None,
            safe,
        },
        Ending::Spent { trail, raised } => {
            let bound = bound_by(antichain, raised);
            Solved {
                mark: Mark::Bounds,
                lower: Some(bound.lower),
                upper: Some(upper),
                paths,
                cert: bound.cert,
                trail: Some(trail),
                safe,
            }
        }
    }
}

/// A lower bound, with what shows it.
#[derive(Debug, Drop)]
struct Bound {
    lower: u64,
    cert: Cert,
}

/// The bound that a refutation shows, where there is one, and else the width.
fn bound_by(antichain: Ids, raised: Option<Trail>) -> Bound
    ensures lower { result.lower ≡ floor_of (length antichain) raised }
    ensures shows { (nodes : ℕ) (i : Instance) → IsWidth i (length antichain) → IsAntichain i antichain → IfSome raised (IsRaisedWithin nodes i (length antichain)) → IsCertFor nodes Interval i (floor_of (length antichain) raised) result.cert }
    ensures rising { (g : Graph) → AreRisingEdges g antichain → IfSome raised IsSmallTrail → IsCertOf g result.cert }
    ensures other { is_cut result.cert ≡ false }
{
    match raised {
        Some(tree) => Bound {
            lower: u64::from(tree.decision.slots) + 1,
            cert: Cert::Tree(tree),
        },
        None => Bound {
            lower: antichain.len() as u64,
            cert: cert_of(antichain),
        },
    }
}

/// What is said of a graph that nothing meets.
pub fn without_answer(alloc: Global, cert: Cert, safe: Option<IdLists>) -> Solved
    ensures { result ≡ record { mark = Infeasible; lower = None; upper = None; paths = []; cert = cert; trail = None; safe = safe } }
{
    Solved {
        mark: Mark::Infeasible,
        lower: None,
        upper: None,
        paths: Answer::new(alloc),
        cert,
        trail: None,
        safe,
    }
}

/// The certificate of a width: none for 0.
fn cert_of(antichain: Ids) -> Cert
    ensures shows { (nodes : ℕ) (i : Instance) → IsWidth i (length antichain) → IsAntichain i antichain → IsCertFor nodes Interval i (length antichain) result }
    ensures rising { (g : Graph) → AreRisingEdges g antichain → IsCertOf g result }
    ensures other { is_cut result ≡ false }
{
    if antichain.len() == 0 {
        Cert::Zero
    } else {
        Cert::Wide(antichain)
    }
}
