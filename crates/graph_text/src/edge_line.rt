//! What the fields of an edge line say.
ghost use Rattle.std.specs.Prelude.{◌≡◌, ◌≤◌, List, ℕ, map, IfOk, IfErr, Some, None};
ghost use Rattle.std.specs.Borrow.{Bor};
ghost use Rattle.graph_text.specs.LineFaults.{weights_in, fault_of_fields};
ghost use Rattle.graph_text.specs.Reading.{weights_of, range_in, most_weight};

use crate::fields::parse_weight;
use dag_net::{Mode, Range};
use report_terms::Why;

/// How many weights an edge line ends with.
fn weights_of(mode: Mode) -> usize
    ensures { result ≡ weights_of mode }
{
    match mode {
        Mode::Exact => 1,
        Mode::Interval => 2,
        Mode::Abs { k: _ } => 1,
    }
}

/// The range of an edge line with these fields, or what is wrong with them.
pub fn read_range(mode: Mode, fields: &[&[u8]]) -> Result<Range, Why>
    ensures ok { let texts = map (λ (field : Bor (List ℕ)). field.now) fields.now in
        IfOk result (λ range. (fault_of_fields mode texts ≡ None) × (range ≡ range_in (weights_in mode texts))) }
    ensures small { IfOk result (λ range. range.lo ≤ most_weight) }
    ensures err { let texts = map (λ (field : Bor (List ℕ)). field.now) fields.now in
        IfErr result (λ why. fault_of_fields mode texts ≡ Some why) }
{
    if fields.len() != 2 + weights_of(mode) {
        return Err(Why::BadFields);
    }
    let Some(lo) = parse_weight(fields[2]) else {
        return Err(Why::BadWeight);
    };
    let Some(hi) = parse_weight(fields[fields.len() - 1]) else {
        return Err(Why::BadWeight);
    };
    if hi < lo {
        return Err(Why::BadRange);
    }
    Ok(Range { lo, hi })
}
