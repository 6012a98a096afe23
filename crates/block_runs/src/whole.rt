//! The reading of a whole input.
ghost use Rattle.std.specs.Prelude.{◌≡◌, ◌≢◌, ◌<◌, ◌^◌, ◌≤◌, List, ℕ, length, is_some, IfOk, IfErr, IfSome};
ghost use Rattle.flow_io.specs.Outside.{Rose, Took};
ghost use Rattle.block_runs.specs.Run.{HasEnded};
ghost use Rattle.block_runs.specs.Whole.{WhereSeen, TakesFirst, IsAtEnd, IsNoOther, IsStopped, taken};

use crate::piece::{MOST, ROOM, read_piece};
use flow_io::{Inputs, Status};
use std::alloc::Global;

/// Reads the input of this name to its end. An `Err` is the status of a run that stops there.
pub fn read_input<I: Inputs>(alloc: Global, name: &str, inputs: &mut I) -> Result<Vec<u8>, Status>
    requires { I.may_ask inputs.old name.now }
    ensures short { IfOk result (λ bytes. length bytes.items < 2 ^ 30) }
    ensures whole { IfOk result (λ bytes. WhereSeen (I.holds inputs.old name.now) (I.selected inputs.new) (λ seen. seen.held ≡ bytes.items)) }
    ensures ended { IfOk result (λ _. WhereSeen (I.holds inputs.old name.now) (I.selected inputs.new) (HasEnded name.now)) }
    ensures first { WhereSeen (I.holds inputs.old name.now) (I.selected inputs.new) (TakesFirst name.now) }
    ensures stopped { IfErr result IsStopped }
    ensures long { result ≡ Err Status.Long → WhereSeen (I.holds inputs.old name.now) (I.selected inputs.new)
        (λ seen. length (taken name.now seen) ≡ 2 ^ 30) }
    ensures fault { result ≡ Err Status.Fault → Rose (I.faults inputs.old) (I.faults inputs.new) }
    ensures later { I.faults inputs.old ≤ I.faults inputs.new }
    ensures only { IfSome (I.selected inputs.new) (IsNoOther name.now) }
    ensures asks { (other : List ℕ) → other ≢ name.now → I.may_ask inputs.old other → I.may_ask inputs.new other }
    ensures holds { (any : List ℕ) → I.holds inputs.new any ≡ I.holds inputs.old any }
    ensures told { is_some (I.selected inputs.new) ≡ is_some (I.selected inputs.old) }
{
    if inputs.select(name).is_err() {
        return Err(Status::Fault);
    }
    read_to_end(alloc, inputs)
}

/// Reads the selected input to its end.
fn read_to_end<I: Inputs>(alloc: Global, inputs: &mut I) -> Result<Vec<u8>, Status>
    ensures ended { IfOk result (λ bytes. (length bytes.items < 2 ^ 30) × IsAtEnd (I.selected inputs.new)
        × Took (I.selected inputs.old) (I.selected inputs.new) bytes.items) }
    ensures took { (bytes : List ℕ) × (length bytes ≤ 2 ^ 30) × Took (I.selected inputs.old) (I.selected inputs.new) bytes }
    ensures stopped { IfErr result IsStopped }
    ensures long { result ≡ Err Status.Long →
        (bytes : List ℕ) × (length bytes ≡ 2 ^ 30) × Took (I.selected inputs.old) (I.selected inputs.new) bytes }
    ensures fault { result ≡ Err Status.Fault → Rose (I.faults inputs.old) (I.faults inputs.new) }
    ensures later { I.faults inputs.old ≤ I.faults inputs.new }
    ensures asks { (any : List ℕ) → I.may_ask inputs.old any → I.may_ask inputs.new any }
    ensures holds { (any : List ℕ) → I.holds inputs.new any ≡ I.holds inputs.old any }
{
    let mut bytes = Vec::new(alloc);
    let mut buffer = [0; ROOM];
    while bytes.len() < MOST {
        let room = (MOST - bytes.len()).min(ROOM);
        let piece = &mut buffer[..room];
        let Ok(count) = read_piece(inputs, piece) else {
            return Err(Status::Fault);
        };
        if count == 0 {
            return Ok(bytes);
        }
        if bytes.extend_from_slice(&piece[..count]).is_err() {
            return Err(Status::Memory);
        }
    }
    Err(Status::Long)
}
