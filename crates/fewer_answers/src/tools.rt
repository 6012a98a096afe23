//! What makes answers of a net: a widest cut or another one, sweeps from it, and takings.

use crate::takings::Takings;
use flow_kernels::Cover;
use flow_sweeps::{How, Means, Rooms, Sweep};
use search_rooms::{FlowNet, Pile};
use std::alloc::{AllocError, Global};

/// Sweeps and takings, with the cut where a sweep starts.
#[derive(Drop)]
pub struct Tools {
    pub cover: Cover,
    pub cut: Pile<u32>,
    pub sweep: Sweep,
    pub takings: Takings,
}

impl Tools {
    /// Room for searches over a kernel.
    pub fn with_room(alloc: Global, rooms: Rooms) -> Result<Tools, AllocError> {
        Ok(Tools {
            cover: Cover::with_room(alloc, rooms.vertices, rooms.edges)?,
            cut: Pile::with_room(alloc, rooms.edges as usize)?,
            sweep: Sweep::with_room(alloc, rooms)?,
            takings: Takings::with_room(alloc, rooms)?,
        })
    }

    /// The cut is the widest one.
    pub fn cut_widest(&mut self, net: &FlowNet, means: &mut Means) {
        self.cover.widest_cut(net, &mut self.cut, &mut means.purse);
    }

    /// The cut is that in front of a vertex by lot.
    pub fn cut_by_lot(&mut self, net: &FlowNet, means: &mut Means) {
        let place = means.draw(net.sink()).saturating_add(1);
        net.cut_before(place, &mut self.cut);
    }

    /// Makes an answer from the cut. False where the room is used up.
    pub fn sweep(&mut self, net: &FlowNet, how: How, means: &mut Means) -> bool {
        self.sweep.run(net, self.cut.as_slice(), how, means)
    }
}
