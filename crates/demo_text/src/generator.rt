//! The text that a seed gives.
ghost use Rattle.std.specs.Prelude.{◌≡◌, ◌<◌, ◌^◌, length, IfOk};
ghost use Rattle.demo_text.specs.Demo.{demo_text};

use crate::block::write_block;
use crate::draws::Draws;
use crate::path::draw_paths;
use flow_io::Bytes;
use std::alloc::{AllocError, Global};

/// How many graphs a text has.
const BLOCKS: u32 = 40;

/// The fewest paths of a graph.
const FEWEST_PATHS: u32 = 2;

/// How many numbers of paths there are.
const PATH_NUMBERS: u32 = 4;

/// The text that a seed gives: forty graphs.
pub fn demo(alloc: Global, seed: u32) -> Result<Bytes, AllocError>
    ensures text { IfOk result (λ text. text ≡ demo_text seed) }
    ensures short { IfOk result (λ text. length text < 2 ^ 62) }
{
    let mut draws = Draws::from_seed(seed);
    let mut text = String::new(alloc);
    for block in 0..BLOCKS {
        let count = FEWEST_PATHS + draws.draw(PATH_NUMBERS);
        let paths = draw_paths(alloc, &mut draws, count)?;
        write_block(alloc, &mut text, block + 1, paths.as_slice())?;
    }
    Ok(Bytes::from_vec(text.into_bytes()))
}
