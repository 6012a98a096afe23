//! When a report is regular, and what its text tells: each function has an empty body, and its contract is the law.
ghost use Rattle.std.specs.Prelude.{IsTrue};
ghost use Rattle.graph_text.specs.Blocks.{TextBlock, IsTextBlock, name_of};
ghost use Rattle.report_reading.specs.Laws.{FoundIsRegular, ReportsAreRegular};
ghost use Rattle.report_reading.specs.ReportText.{is_name};
ghost use Rattle.report_reading.specs.ReaderLaws.{TextsAreOfOneReport, BadLinesAreOfNoReport};

/// What was found in a net is regular for all labels with its edges.
pub fn found_is_regular()
    ensures { FoundIsRegular }
{}

/// A report on a net is regular for all labels with its edges.
pub fn reports_are_regular()
    ensures { ReportsAreRegular }
{}

/// The name of a block of a text may stand in a report.
pub fn names_of_blocks()
    ensures { (block : TextBlock) → IsTextBlock block → IsTrue (is_name (name_of block)) }
{}

/// A text is that of one regular report at most.
pub fn texts_are_of_one_report()
    ensures { TextsAreOfOneReport }
{}

/// No line of a text is bad exactly where it is the text of a regular report.
pub fn bad_lines_are_of_no_report()
    ensures { BadLinesAreOfNoReport }
{}
