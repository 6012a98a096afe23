//! The words of reports.
ghost use Rattle.std.specs.Prelude.{◌≡◌};
ghost use Rattle.report_reading.specs.ReportText.{mark_word, side_word, why_word};
ghost use Rattle.report_reading.specs.LineFields.{why_in};

use decomposition::Side;
use report_terms::{Mark, Why};

/// The word of a mark.
pub fn word_of(mark: Mark) -> &'static [u8]
    ensures { result.now ≡ mark_word mark }
{
    match mark {
        Mark::Optimal => b"optimal",
        Mark::Infeasible => b"infeasible",
        Mark::Bounds => b"bounds",
    }
}

/// The word of the side of a cut.
pub fn word_of_side(side: Side) -> &'static [u8]
    ensures { result.now ≡ side_word side }
{
    match side {
        Side::Entering => b"in",
        Side::Leaving => b"out",
    }
}

/// The word of a refusal.
pub fn name_of(why: Why) -> &'static [u8]
    ensures { result.now ≡ why_word why }
{
    match why {
        Why::LongLine => b"LongLine",
        Why::BadCount => b"BadCount",
        Why::BadFields => b"BadFields",
        Why::BadWeight => b"BadWeight",
        Why::BadRange => b"BadRange",
        Why::RepeatedEdge => b"RepeatedEdge",
        Why::TooManyEdges => b"TooManyEdges",
        Why::TooManyConstraints => b"TooManyConstraints",
        Why::ShortConstraint => b"ShortConstraint",
        Why::Cycle => b"Cycle",
        Why::UnknownEdge => b"UnknownEdge",
        Why::Unconserved => b"Unconserved",
    }
}

/// All refusals of a block.
const ALL_WHYS: [Why; 12] = [
    Why::LongLine,
    Why::BadCount,
    Why::BadFields,
    Why::BadWeight,
    Why::BadRange,
    Why::RepeatedEdge,
    Why::TooManyEdges,
    Why::TooManyConstraints,
    Why::ShortConstraint,
    Why::Cycle,
    Why::UnknownEdge,
    Why::Unconserved,
];

/// The refusal of a word.
pub(crate) fn why_in(word: &[u8]) -> Option<Why>
    ensures { result ≡ why_in word.now }
{
    ALL_WHYS.iter().copied().find(|why| name_of(*why) == word)
}
