//! The generated text of a seed.
ghost use Rattle.std.specs.Prelude.{◌≡◌, ◌<◌, ◌^◌, length, IfOk};
ghost use Rattle.demo_text.specs.Demo.{demo_text};

use flow_io::Bytes;
use std::alloc::{AllocError, Global};

/// The text of a seed, whose graphs a run with this seed solves.
pub fn demo(alloc: Global, seed: u64) -> Result<Bytes, AllocError>
    requires { seed < 2 ^ 31 }
    ensures text { IfOk result (λ text. text ≡ demo_text seed) }
    ensures short { IfOk result (λ text. length text < 2 ^ 62) }
{
    demo_text::demo(alloc, seed as u32)
}
