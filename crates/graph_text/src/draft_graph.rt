//! The graph of a block while its edge lines come.
ghost use Rattle.std.specs.Prelude.{◌≡◌, ◌<◌, ◌≤◌, ◌*◌, ◌==◌, ◌↔◌, false, List, [], ◌∷◌, ◌++◌, length, take, map, slice_index, vec_len, AllPairs, MatchResult, All, IsTrue, IfOk, None};
ghost use Rattle.std.specs.List.{list_any};
ghost use Rattle.std.specs.Vec.{vec_allocator};
ghost use Rattle.decomposition.specs.declared.Mode.{Mode as Model};
ghost use Rattle.decomposition.specs.declared.Range.{Range as Bounds};
ghost use Rattle.decomposition.specs.Graph.{graph_of, IsNet, is_inner};
ghost use Rattle.dag_net.specs.Build.{FollowsNet, ClosesCycle};
ghost use Rattle.graph_text.specs.FirstEdges.{IsFirstAt, IsUnbalancedEdge};
ghost use Rattle.graph_text.specs.Labels.{is_field};
ghost use Rattle.graph_text.specs.LineFaults.{fault_among, fault_of_edge, NoneRefused};
ghost use Rattle.graph_text.specs.Constraints.{listing_of};
ghost use Rattle.graph_text.specs.Reading.{Line, most_edges, most_weight, ends_of, constraint_lines, edge_lines, range_of, read_lines};
ghost use Rattle.graph_text.specs.ShownLine.{ShowsLine};

use crate::block::RawGraph;
use crate::constraints::Constraints;
use crate::edge_line::read_range;
use crate::fields::fields;
use crate::labels::Labels;
use dag_net::{BuildFault, Mode, Net, Range, Ranges};
use report_terms::{Refusal, Why};
use std::alloc::{AllocError, Global};

/// The most edges of a block.
const MOST_EDGES: usize = 4_096;

/// The first edge that the vertex is an end of.
fn first_edge_at(net: &Net, v: u32) -> u32
    requires { IsTrue (is_inner net.now v) }
    ensures { IsFirstAt net.now v result }
{
    for e in 0..net.edges() {
        if net.tail(e) == v || net.head(e) == v {
            return e;
        }
    }
    unreachable!()
}

/// The names, the edges with their ranges, and the number of the line of each edge.
#[derive(Drop)]
pub struct DraftGraph {
    labels: Labels,
    ranges: Ranges,
    edge_numbers: Vec<u64>,
    ghost few_edges: { vec_len edge_numbers ≤ most_edges },
    ghost few_names: { length labels.names ≤ 2 * vec_len edge_numbers },
    ghost numbered: { length labels.edges ≤ vec_len edge_numbers },
    ghost ranged: { length labels.edges ≤ length ranges },
    ghost small: { All (λ r. r.lo ≤ 1000000000000) ranges },
}

impl DraftGraph {
    ghost use Rattle.graph_text.specs.DraftGraph.{HasEdge, HoldsEdges};

    /// No edge yet.
    pub fn new(alloc: Global) -> DraftGraph
        ensures { (mode : Model) → HoldsEdges mode [] result }
    {
        DraftGraph {
            labels: Labels::empty(alloc),
            ranges: Ranges::new(alloc),
            edge_numbers: Vec::new(alloc),
        }
    }

    /// The allocator of its lists.
    pub fn allocator(&self) -> Global
        ensures { result ≡ vec_allocator self.now.edge_numbers }
    {
        *self.edge_numbers.allocator()
    }

    /// Whether there is an edge from the vertex of the first name to that of the second.
    fn has_edge(&self, tail: &[u8], head: &[u8]) -> bool
        ensures { IsTrue result ↔ HasEdge self.now.labels tail.now head.now }
    {
        self.labels.edge_between(tail, head).is_some()
    }

    /// Takes the edge of the line of this number, or says what is wrong with it.
    pub fn add(
        &mut self,
        number: u64,
        tail: &[u8],
        head: &[u8],
        range: Range,
    ) -> Result<Option<Why>, AllocError>
        requires tail { IsTrue (is_field tail.now) }
        requires head { IsTrue (is_field head.now) }
        requires small { range.lo ≤ most_weight }
        ensures fault { IfOk result (λ fault. (mode : Model) (edges : List Line) (line : Line) → HoldsEdges mode edges self.old
            → ends_of line ≡ tail.now ∷ head.now ∷ [] → fault ≡ fault_among edges line) }
        ensures added { IfOk result (λ fault. (mode : Model) (edges : List Line) (line : Line) → HoldsEdges mode edges self.old
            → ends_of line ≡ tail.now ∷ head.now ∷ [] → line.number ≡ number → range_of mode line ≡ range
            → fault ≡ None → HoldsEdges mode (edges ++ line ∷ []) self.new) }
    {
        if self.has_edge(tail, head) {
            return Ok(Some(Why::RepeatedEdge));
        }
        if self.edge_numbers.len() == MOST_EDGES {
            return Ok(Some(Why::TooManyEdges));
        }
        self.ranges.push(range)?;
        self.edge_numbers.push(number)?;
        let u = self.labels.add_vertex(tail)?;
        let v = self.labels.add_vertex(head)?;
        // It is new, since no edge had these ends.
        let _is_new = self.labels.add_edge(u, v)?;
        Ok(None)
    }

    /// Takes an edge line, or says what is wrong with it.
    pub fn add_line(
        &mut self,
        mode: Mode,
        number: u64,
        is_long: bool,
        text: &[u8],
    ) -> Result<Option<Why>, AllocError>
        requires one_line { list_any (λ b. b == 10) text.now ≡ false }
        ensures fault { IfOk result (λ fault. (edges : List Line) (line : Line) → HoldsEdges mode edges self.old
            → ShowsLine number is_long text.now line → fault ≡ fault_of_edge mode edges line) }
        ensures added { IfOk result (λ fault. (edges : List Line) (line : Line) → HoldsEdges mode edges self.old
            → ShowsLine number is_long text.now line → fault ≡ None → HoldsEdges mode (edges ++ line ∷ []) self.new) }
    {
        if is_long {
            return Ok(Some(Why::LongLine));
        }
        let fields = fields(self.allocator(), text)?;
        match read_range(mode, &fields) {
            Ok(range) => self.add(number, fields[0], fields[1], range),
            Err(why) => Ok(Some(why)),
        }
    }

    /// The weights of the edges: the lower ends of their ranges.
    fn weights(&self, alloc: Global) -> Result<Vec<u64>, AllocError>
        ensures weights { IfOk result (λ weights. weights.items ≡ map (λ (r : Bounds). r.lo) (take (length self.now.labels.edges) self.now.ranges)) }
        ensures count { IfOk result (λ weights. length weights.items ≡ length self.now.labels.edges) }
        ensures small { IfOk result (λ weights. All (λ units. units ≤ 1000000000000) weights.items) }
    {
        let count = self.labels.edges().len();
        let ranges = &self.ranges.as_slice()[..count];
        ranges.iter().map(|range| range.lo).collect(alloc)
    }

    /// The net of the edges, or the first of them that closes a cycle with those before it.
    fn build_net(&self, alloc: Global) -> Result<Result<Net, u32>, AllocError>
        ensures { let g = graph_of (length self.now.labels.names) self.now.labels.edges in
            IfOk result (λ built. MatchResult built (λ net. (net ≡ g) × IsNet net) (λ e. FollowsNet g e × ClosesCycle g e)) }
    {
        match Net::build(alloc, self.labels.vertices() as u32, self.labels.edges()) {
            Ok(net) => Ok(Ok(net)),
            Err(BuildFault::Cycle { edge }) => Ok(Err(edge)),
            Err(BuildFault::Memory) => Err(AllocError),
            Err(BuildFault::Bounds { edge: _ }) => unreachable!(),
            Err(BuildFault::Repeated { edge: _ }) => unreachable!(),
        }
    }

    /// In the exact model, the first edge at the first vertex that is not balanced.
    fn unbalanced_edge(
        &self,
        alloc: Global,
        mode: Mode,
        net: &Net,
    ) -> Result<Option<u32>, AllocError>
        requires { net.now ≡ graph_of (length self.now.labels.names) self.now.labels.edges }
        ensures { IfOk result (IsUnbalancedEdge mode net.now
            (slice_index (map (λ (r : Bounds). r.lo) (take (length self.now.labels.edges) self.now.ranges)))) }
    {
        match mode {
            Mode::Exact => {}
            Mode::Interval | Mode::Abs { k: _ } => return Ok(None),
        }
        let weights = self.weights(alloc)?;
        let Some(v) = net.first_unbalanced(alloc, &weights)? else {
            return Ok(None);
        };
        Ok(Some(first_edge_at(net, v)))
    }

    /// The refusal of the line of an edge.
    fn refusal(&self, edge: u32, why: Why) -> Refusal
        requires { edge < length self.now.labels.edges }
        ensures { result ≡ record { line = slice_index self.now.edge_numbers.items edge; why = why } }
    {
        let line = self.edge_numbers[edge as usize];
        Refusal { line, why }
    }

    /// What a block is read as that has this graph, these constraints, and no line that is refused for itself or the lines
    /// before it.
    pub fn into_body(
        self,
        alloc: Global,
        mode: Mode,
        constraints: &Constraints,
    ) -> Result<Result<RawGraph, Refusal>, AllocError>
        ensures { IfOk result (λ body. (lines : List Line) → HoldsEdges mode (edge_lines lines) self
            → constraints.now ≡ map listing_of (constraint_lines lines)
            → AllPairs (λ a b. a.number ≤ b.number) lines → NoneRefused mode lines → body ≡ read_lines mode lines) }
    {
        let net = match self.build_net(alloc)? {
            Ok(net) => net,
            Err(edge) => return Ok(Err(self.refusal(edge, Why::Cycle))),
        };
        let runs = match constraints.runs(alloc, &self.labels)? {
            Ok(runs) => runs,
            Err(line) => {
                return Ok(Err(Refusal {
                    line,
                    why: Why::UnknownEdge,
                }))
            }
        };
        if let Some(edge) = self.unbalanced_edge(alloc, mode, &net)? {
            return Ok(Err(self.refusal(edge, Why::Unconserved)));
        }
        Ok(Ok(RawGraph {
            labels: self.labels,
            net,
            ranges: self.ranges,
            runs,
        }))
    }
}
