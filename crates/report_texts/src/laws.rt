//! How texts of reports are cut: each function has an empty body, and its contract is the law.
ghost use Rattle.report_texts.specs.Laws.{FirstTextsAreCutOff, TextsAreCutBack, ModelsAreTold};

/// The text of a report is cut off from what stands behind it.
pub fn first_texts_are_cut_off()
    ensures { FirstTextsAreCutOff }
{}

/// Texts of reports, one behind the other, are cut back into these texts.
pub fn texts_are_cut_back()
    ensures { TextsAreCutBack }
{}

/// The model that is named is that of the first report.
pub fn models_are_told()
    ensures { ModelsAreTold }
{}
