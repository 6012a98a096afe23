//! One read of an input.
ghost use Rattle.std.specs.Prelude.{◌≡◌, ◌≤◌, List, ℕ, length, IfOk, OnErr};
ghost use Rattle.flow_io.specs.Outside.{HasCause, Puts, after_read};

use flow_io::{Fault, Inputs};

/// The most bytes that are taken of an input.
pub(crate) const MOST: usize = 1 << 30;

/// How many bytes are asked for at once.
pub(crate) const ROOM: usize = 1 << 16;

/// One read of the selected input: puts bytes at the front of `into`, and answers how many. None of a nonempty `into` is the end.
pub fn read_piece<I: Inputs>(inputs: &mut I, into: &mut [u8]) -> Result<usize, Fault>
    ensures asks { (any : List ℕ) → I.may_ask inputs.old any → I.may_ask inputs.new any }
    ensures holds { (any : List ℕ) → I.holds inputs.new any ≡ I.holds inputs.old any }
    ensures count { IfOk result (λ n. n ≤ length into.new) }
    ensures bytes { IfOk result (λ n. Puts (I.selected inputs.old) n into.new) }
    ensures left { IfOk result (λ n. I.selected inputs.new ≡ after_read n (I.selected inputs.old)) }
    ensures err { OnErr result (I.selected inputs.new ≡ I.selected inputs.old) }
    ensures cause { HasCause (I.faults inputs.old) (I.faults inputs.new) result }
{
    inputs.read(into)
}
