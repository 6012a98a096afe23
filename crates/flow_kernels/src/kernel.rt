//! The kernel of a flow, where answers start in it, and what its paths are in the net.

use crate::contraction::Contraction;
use crate::cuts::Cover;
use crate::whole::Whole;
use dag_net::{Answer, Ids, Net};
use search_rooms::{FlowNet, NONE, Paths, Pile, Purse, View};
use std::alloc::{AllocError, Global};

/// The whole net of a flow, its kernel, and a widest antichain of that.
#[derive(Drop)]
pub struct Kernel {
    whole: Whole,
    contraction: Contraction,
    net: FlowNet,
    antichain: Pile<u32>,
    /// A path that is lifted.
    lifted: Paths,
}

impl Kernel {
    /// The kernel of a flow of the net.
    pub fn of(
        alloc: Global,
        net: &Net,
        flow: &[u64],
        purse: &mut Purse,
    ) -> Result<Kernel, AllocError> {
        let view = View::of(alloc, net)?;
        let whole = Whole::of(alloc, &view, flow)?;
        let vertices = whole.net.vertices();
        let edges = whole.net.edges();
        let mut contraction = Contraction::with_room(alloc, vertices, edges)?;
        let mut kernel = FlowNet::with_room(alloc, vertices, edges)?;
        contraction.contract(&whole.net, &mut kernel, purse);
        let mut antichain = Pile::with_room(alloc, kernel.edges() as usize)?;
        if kernel.edges() > 0 {
            let mut cover = Cover::with_room(alloc, kernel.vertices(), kernel.edges())?;
            cover.widest_cut(&kernel, &mut antichain, purse);
        }
        Ok(Kernel {
            whole,
            contraction,
            net: kernel,
            antichain,
            lifted: Paths::with_room(alloc, 1, edges)?,
        })
    }

    /// The kernel itself.
    pub fn net(&self) -> &FlowNet {
        &self.net
    }

    /// The number of paths that need no search.
    pub fn direct(&self) -> u32 {
        self.contraction.direct()
    }

    /// So many paths of the kernel are as few as are wanted.
    pub fn goal(&self, lower: u32) -> u32 {
        lower
            .saturating_sub(self.direct())
            .max(self.antichain.count())
    }

    /// Writes the widest antichain.
    pub fn write_antichain(&self, cut: &mut Pile<u32>) {
        cut.copy_from(&self.antichain);
    }

    /// The answer of the net that paths of the kernel stand for.
    pub fn lift(&mut self, alloc: Global, paths: &Paths) -> Result<Answer, AllocError> {
        let mut answer = Answer::new(alloc);
        for i in 0..paths.count() {
            self.lifted.clear();
            for &e in paths.path(i) {
                self.contraction.spell_edge(e, &mut self.lifted);
            }
            self.lifted.end(paths.weight(i));
            self.write(alloc, &mut answer)?;
        }
        for i in 0..self.direct() {
            self.lifted.clear();
            let weight = self
                .contraction
                .spell_direct(&self.whole.net, i, &mut self.lifted);
            self.lifted.end(weight);
            self.write(alloc, &mut answer)?;
        }
        Ok(answer)
    }

    /// Adds the lifted path to an answer, in the edges of the net.
    fn write(&self, alloc: Global, answer: &mut Answer) -> Result<(), AllocError> {
        let mut path = Ids::new(alloc);
        for &e in self.lifted.path(0) {
            let edge = self.whole.stands.at(e);
            if edge != NONE {
                path.push(edge)?;
            }
        }
        let weight = self.lifted.weight(0);
        if weight >= 1 {
            answer.push(path, weight)?;
        }
        Ok(())
    }
}
