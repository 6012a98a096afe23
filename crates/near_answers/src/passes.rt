//! The path that lowers the error most against the sums of the others. For each weight that brings some edge to an end of its range, one
//! pass against the order finds the best walk from each vertex to a sink, and where a run is wanted one along it to each vertex.

use crate::line::Line;
use crate::spans::Spans;
use search_rooms::{NONE, Names, Purse, View};
use std::alloc::{AllocError, Global};

/// So many weights are tried for one path.
const WEIGHTS: usize = 256;

/// No walk goes on from a vertex.
const NOWHERE: i64 = i64::MIN;

/// The greatest gain of a walk at each vertex, and the edge by which it goes.
#[derive(Drop)]
struct Gains {
    gains: Vec<i64>,
    edges: Names,
}

impl Gains {
    fn of(alloc: Global, vertices: u32) -> Result<Gains, AllocError> {
        Ok(Gains {
            gains: vec![in alloc; NOWHERE; vertices as usize]?,
            edges: Names::nones(alloc, vertices)?,
        })
    }

    #[inline(always)]
    fn at(&self, v: u32) -> i64 {
        let v = v as usize;
        if v < self.gains.len() {
            self.gains[v]
        } else {
            NOWHERE
        }
    }

    #[inline(always)]
    fn put(&mut self, v: u32, gain: i64, edge: u32) {
        self.edges.put(v, edge);
        let v = v as usize;
        if v < self.gains.len() {
            self.gains[v] = gain;
        }
    }
}

/// The best path, with the room that finding it takes.
#[derive(Drop)]
pub struct Passes<'a> {
    view: &'a View<'a>,
    /// The vertices at which a path may begin.
    starts: Vec<u32>,
    from: Gains,
    to: Gains,
    weights: Vec<u64>,
    /// The best path so far, its weight, and by how much it lowers the error.
    best: Line,
    weight: u64,
    gain: i64,
}

/// The vertices that no edge enters and some edge leaves.
fn starts_of(alloc: Global, view: &View) -> Result<Vec<u32>, AllocError> {
    let mut starts = Vec::new(alloc);
    for v in 0..view.vertices() {
        if view.is_source(v) && !view.is_sink(v) {
            starts.push(v)?;
        }
    }
    Ok(starts)
}

impl<'a> Passes<'a> {
    /// Room for the passes over a net.
    pub fn of(alloc: Global, view: &'a View<'a>) -> Result<Passes<'a>, AllocError> {
        let edges = view.edges() as usize;
        Ok(Passes {
            view,
            starts: starts_of(alloc, view)?,
            from: Gains::of(alloc, view.vertices())?,
            to: Gains::of(alloc, view.vertices())?,
            weights: Vec::with_capacity(alloc, edges.saturating_mul(2).saturating_add(1))?,
            best: Line::with_room(alloc, edges)?,
            weight: 0,
            gain: 0,
        })
    }

    /// The path that was found last.
    pub fn path(&self) -> &[u32] {
        self.best.as_slice()
    }

    /// Its weight.
    pub fn weight(&self) -> u64 {
        self.weight
    }

    /// By how much it lowers the error.
    pub fn gain(&self) -> i64 {
        self.gain
    }

    /// Finds the path that lowers the error most, of the weights that the purse pays for; false where none lowers it.
    pub fn find(&mut self, spans: &Spans, purse: &mut Purse) -> bool {
        self.start(spans, None);
        let apart = self.weights.len() / WEIGHTS;
        let mut place = 0usize;
        for _ in 0..=WEIGHTS {
            let Some(&weight) = self.weights.get(place) else {
                break;
            };
            if purse.is_spent() {
                break;
            }
            purse.spend(u64::from(self.view.edges()));
            self.pass_back(spans, weight);
            self.keep_best(weight);
            place = place.saturating_add(apart).saturating_add(1);
        }
        self.weight > 0
    }

    /// Finds the path through a run that lowers the error most, or raises it least, of the weights that the purse pays for; false where no
    /// weight is to be had.
    pub fn find_through(&mut self, spans: &Spans, run: &[u32], purse: &mut Purse) -> bool {
        self.start(spans, Some(run));
        let apart = self.weights.len() / WEIGHTS;
        let mut place = 0usize;
        for _ in 0..=WEIGHTS {
            let Some(&weight) = self.weights.get(place) else {
                break;
            };
            if purse.is_spent() {
                break;
            }
            purse.spend(u64::from(self.view.edges()).saturating_mul(2));
            self.pass_back(spans, weight);
            self.pass_on(spans, weight);
            self.keep_through(spans, run, weight);
            place = place.saturating_add(apart).saturating_add(1);
        }
        self.weight > 0
    }

    /// Begins with no path, and lists the weights to try.
    fn start(&mut self, spans: &Spans, run: Option<&[u32]>) {
        self.best.clear();
        self.weight = 0;
        self.gain = if run.is_some() { NOWHERE } else { 0 };
        spans.list_weights(run.is_some(), &mut self.weights);
    }

    /// For each vertex the greatest gain of a walk to a sink, and its first edge.
    fn pass_back(&mut self, spans: &Spans, weight: u64) {
        let view = self.view;
        for place in (0..view.vertices()).rev() {
            let v = view.vertex_at(place);
            let leaving = view.out(v);
            let mut best = if leaving.is_empty() { 0 } else { NOWHERE };
            let mut edge = NONE;
            for &e in leaving {
                let here = self
                    .from
                    .at(view.head(e))
                    .saturating_add(spans.gain_on(e, weight));
                if here > best {
                    best = here;
                    edge = e;
                }
            }
            self.from.put(v, best, edge);
        }
    }

    /// For each vertex the greatest gain of a walk from a source, and its last edge.
    fn pass_on(&mut self, spans: &Spans, weight: u64) {
        let view = self.view;
        for place in 0..view.vertices() {
            let v = view.vertex_at(place);
            let entering = view.into(v);
            let mut best = if entering.is_empty() { 0 } else { NOWHERE };
            let mut edge = NONE;
            for &e in entering {
                let here = self
                    .to
                    .at(view.tail(e))
                    .saturating_add(spans.gain_on(e, weight));
                if here > best {
                    best = here;
                    edge = e;
                }
            }
            self.to.put(v, best, edge);
        }
    }

    /// Keeps the best path of a weight, where it is better than the best so far.
    fn keep_best(&mut self, weight: u64) {
        let mut start = NONE;
        let mut gain = self.gain;
        for &v in &self.starts {
            if self.from.at(v) > gain {
                gain = self.from.at(v);
                start = v;
            }
        }
        if start != NONE {
            self.gain = gain;
            self.weight = weight;
            self.best.clear();
            self.walk_on(start);
        }
    }

    /// The same for the best path through a run.
    fn keep_through(&mut self, spans: &Spans, run: &[u32], weight: u64) {
        let begin = self.view.tail(run.first().copied().unwrap_or(NONE));
        let end = self.view.head(run.last().copied().unwrap_or(NONE));
        let along = self
            .to
            .at(begin)
            .saturating_add(spans.gain_along(run, weight));
        let gain = along.saturating_add(self.from.at(end));
        if gain > self.gain {
            self.gain = gain;
            self.weight = weight;
            self.best.clear();
            self.walk_back(begin);
            self.best.reverse();
            for &e in run {
                self.best.push(e);
            }
            self.walk_on(end);
        }
    }

    /// Adds the edges of the best walk from a vertex to a sink.
    fn walk_on(&mut self, start: u32) {
        let mut v = start;
        for _ in 0..self.view.vertices() {
            let e = self.from.edges.at(v);
            if e == NONE {
                break;
            }
            self.best.push(e);
            v = self.view.head(e);
        }
    }

    /// Adds the edges of the best walk from a source to a vertex, the last one first.
    fn walk_back(&mut self, start: u32) {
        let mut v = start;
        for _ in 0..self.view.vertices() {
            let e = self.to.edges.at(v);
            if e == NONE {
                break;
            }
            self.best.push(e);
            v = self.view.tail(e);
        }
    }
}
