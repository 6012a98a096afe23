//! Worked examples, which the check computes.
ghost use Rattle.std.specs.Prelude.{◌≡◌, [], ◌∷◌, codes};
ghost use Rattle.decomposition.specs.declared.Mode.TheVariants.{Exact, Interval, Abs};
ghost use Rattle.report_reading.specs.declared.read_fault.ReadWhy.TheVariants.{BadName};
ghost use Rattle.flowcheck_cli.specs.CheckLines.{outcome_line, counts_line};
ghost use Rattle.flowcheck_cli.specs.ReportTexts.{report_texts, model_in};
ghost use Rattle.flowcheck_cli.specs.declared.outcome.Outcome.TheVariants.{Yes, No, Unread};

/// How texts of reports are cut.
pub fn texts_by_example()
    ensures nothing { report_texts [] ≡ [] }
    ensures two { report_texts (codes "a\nend\nb\nend\n") ≡ codes "a\nend\n" ∷ codes "b\nend\n" ∷ [] }
    ensures empty { report_texts (codes "end\nend\n") ≡ codes "end\n" ∷ codes "end\n" ∷ [] }
    ensures behind { report_texts (codes "a\nend\n\n") ≡ codes "a\nend\n" ∷ codes "\n" ∷ [] }
    ensures not_ended { report_texts (codes "a\nend") ≡ codes "a\nend" ∷ [] }
    ensures other_lines { report_texts (codes " end\nend \nend\r\nends\n") ≡ codes " end\nend \nend\r\nends\n" ∷ [] }
{}

/// The model that a text of reports names.
pub fn models_by_example()
    ensures nothing { model_in [] ≡ Exact }
    ensures exact { model_in (codes "graph 1\nmodel exact\nend\n") ≡ Exact }
    ensures ranges { model_in (codes "graph 1\nmodel interval\nend\n") ≡ Interval }
    ensures errors { model_in (codes "graph 1\nmodel abs 64\nend\n") ≡ Abs 64 }
    ensures too_many { model_in (codes "graph 1\nmodel abs 65\nend\n") ≡ Exact }
    ensures zeros { model_in (codes "graph 1\nmodel abs 07\nend\n") ≡ Exact }
    ensures first_line { model_in (codes "model interval\nend\n") ≡ Exact }
    ensures second_text { model_in (codes "end\ngraph 2\nmodel interval\nend\n") ≡ Exact }
{}

/// The lines that are printed.
pub fn lines_by_example()
    ensures yes { outcome_line 1 Yes ≡ codes "graph 1 yes\n" }
    ensures no { outcome_line 12 (No 345) ≡ codes "graph 12 no 345\n" }
    ensures unread { outcome_line 2 (Unread 30 BadName) ≡ codes "graph 2 unread 30 BadName\n" }
    ensures counts { counts_line 2 10 ≡ codes "blocks 2 reports 10\n" }
{}
