//! For each vertex some of the paths through it, all of them where they are few.

use flow_sweeps::Means;
use search_rooms::Names;
use std::alloc::{AllocError, Global};

/// At each vertex so many of its paths are known, at most.
const KNOWN: u32 = 128;

/// Paths by the vertices that they lead through.
#[derive(Drop)]
pub struct Through {
    room: u32,
    counts: Names,
    paths: Names,
}

impl Through {
    /// Room for so many vertices.
    pub fn with_room(alloc: Global, vertices: u32) -> Result<Through, AllocError> {
        Ok(Through {
            room: 1,
            counts: Names::nones(alloc, vertices)?,
            paths: Names::nones(alloc, vertices.saturating_mul(KNOWN))?,
        })
    }

    /// No path is known; of so many each vertex is to know its own.
    pub fn clear(&mut self, vertices: u32, paths: u32) {
        self.room = paths.max(1).min(KNOWN);
        self.counts.fill_first(vertices, 0);
    }

    /// The known paths through a vertex.
    pub fn of(&self, v: u32) -> &[u32] {
        let begin = v.saturating_mul(self.room);
        self.paths
            .part(begin, begin.saturating_add(self.counts.at(v)))
    }

    /// Notes a path, in the place of another where the room is used up.
    pub fn enter(&mut self, v: u32, path: u32, means: &mut Means) {
        let count = self.counts.at(v);
        let place = if count < self.room {
            count
        } else {
            means.draw(self.room)
        };
        self.paths
            .put(v.saturating_mul(self.room).saturating_add(place), path);
        self.counts.put(v, count.saturating_add(1).min(self.room));
    }

    /// Forgets a path, where it is known.
    pub fn leave(&mut self, v: u32, path: u32) {
        let mut place = v.saturating_mul(self.room);
        let last = self.counts.at(v).saturating_sub(1);
        let moved = self.paths.at(place.saturating_add(last));
        for _ in 0..last.saturating_add(1) {
            if self.paths.at(place) == path {
                self.paths.put(place, moved);
                self.counts.put(v, last);
                break;
            }
            place = place.saturating_add(1);
        }
    }
}
