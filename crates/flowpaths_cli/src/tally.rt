//! The counts of what is said of the graphs of a text, and the lines that tell them.
ghost use Rattle.std.specs.Prelude.{◌≡◌, ◌≤◌, ◌<◌, List, [], ◌∷◌, ◌++◌, IfOk, string_bytes};
ghost use Rattle.report_terms.specs.declared.report.Report.{Report as AReport};
ghost use Rattle.flowpaths_cli.specs.Marks.{paths_of};

use flow_io::Status;
use report_terms::{Body, Mark};
use std::alloc::{AllocError, Global};

/// How many graphs there are, how many of them have each mark, and how many paths are known in all.
#[derive(Clone, Copy)]
pub struct Tally {
    pub blocks: u64,
    pub optimal: u64,
    pub bounds: u64,
    pub paths: u64,
}

impl Tally {
    ghost use Rattle.flowpaths_cli.specs.Tally.{most_told, tally_of, lines_of, IsWithin};

    /// The counts of no graph.
    pub fn new() -> Tally
        ensures { result ≡ tally_of [] }
    {
        Tally {
            blocks: 0,
            optimal: 0,
            bounds: 0,
            paths: 0,
        }
    }

    /// Counts what is said of one more graph.
    pub fn add(&mut self, body: &Body)
        requires within { IsWithin self.old }
        requires few { paths_of body.now ≤ most_told }
        ensures { (reports : List AReport) (report : AReport) → self.old ≡ tally_of reports → report.body ≡ body.now
            → self.new ≡ tally_of (reports ++ report ∷ []) }
    {
        self.blocks += 1;
        if let Body::Solved(solved) = body {
            match solved.mark {
                Mark::Optimal => self.optimal += 1,
                Mark::Bounds => self.bounds += 1,
                Mark::Infeasible => {}
            }
            self.paths += solved.upper.unwrap_or(0);
        }
    }

    /// The four lines of the counts.
    pub fn lines(&self, alloc: Global) -> Result<String, AllocError>
        ensures { IfOk result (λ lines. string_bytes lines ≡ lines_of self.now) }
    {
        let blocks = self.blocks;
        let optimal = self.optimal;
        let bounds = self.bounds;
        let paths = self.paths;
        let mut text = String::new(alloc);
        write!(
            text,
            "blocks {blocks}\noptimal {optimal}\nbounds {bounds}\npaths {paths}\n"
        )?;
        Ok(text)
    }

    /// The status of a run that ended with these counts.
    pub fn status(&self) -> Status
        ensures partial { 0 < self.now.bounds → result ≡ Status.Partial }
        ensures clean { self.now.bounds ≡ 0 → result ≡ Status.Clean }
    {
        if self.bounds > 0 {
            Status::Partial
        } else {
            Status::Clean
        }
    }
}
