//! The line of the mark.

ghost use Rattle.std.specs.Prelude.{◌↔◌, IsTrue};
ghost use Rattle.cert_check.specs.Accepted.{MarkFits};

use report_terms::Mark;

/// Whether the bounds are those of the mark: equal numbers, none, or a number with none or a larger one above it.
pub fn mark_fits(mark: Mark, lower: Option<u64>, upper: Option<u64>) -> bool
    ensures { IsTrue result ↔ MarkFits mark lower upper }
{
    match (lower, upper) {
        (None, None) => mark == Mark::Infeasible,
        (None, Some(_)) => false,
        (Some(_), None) => mark == Mark::Bounds,
        (Some(lower), Some(upper)) => match mark {
            Mark::Optimal => lower == upper,
            Mark::Infeasible => false,
            Mark::Bounds => lower < upper,
        },
    }
}
