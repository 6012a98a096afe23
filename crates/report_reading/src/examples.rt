//! The text of reports at worked examples, which the check computes.
ghost use Rattle.std.specs.Prelude.{◌≡◌, codes, [], ◌∷◌, Some, None, true, false};
ghost use Rattle.decomposition.specs.declared.Side.TheVariants.{Entering, Leaving};
ghost use Rattle.decomposition.specs.declared.Token.TheVariants.{Miss, Split};
ghost use Rattle.graph_text.specs.Labels.{empty_labels};
ghost use Rattle.report_terms.specs.declared.report.Cert.TheVariants.{Zero, Tree, Cut, Crowd};
ghost use Rattle.report_reading.specs.declared.read_fault.ReadWhy.TheVariants.{BadForm, BadNumber, BadName, BadOrder, NoEnd};
ghost use Rattle.report_reading.specs.ReportText.{text_of, is_regular};
ghost use Rattle.report_reading.specs.BadLines.{first_bad_line};
ghost use Rattle.report_reading.specs.Rows.{one_edge, two_sides, optimal_report, refused_report, sides_report, safe_report, trail_report, no_slot, one_slot, open_report, infeasible_report};

/// A path that is the least answer, with an edge that shows it.
pub fn optimal_by_example()
    ensures text { text_of one_edge optimal_report
        ≡ codes "graph 1 one\nmodel exact\nmark optimal\nlower 1\nupper 1\npath 5 s t\ncert wide 1\nedge s t\nend\n" }
    ensures regular { is_regular one_edge optimal_report ≡ true }
    ensures strange { is_regular empty_labels optimal_report ≡ false }
{}

/// A refusal.
pub fn refused_by_example()
    ensures text { text_of empty_labels refused_report
        ≡ codes "graph 1 x\nmodel exact\nrefused 3 Unconserved\nend\n" }
    ensures regular { is_regular empty_labels refused_report ≡ true }
{}

/// Two paths in report order, in the other order, and the same one twice.
pub fn order_by_example()
    ensures text { text_of two_sides (sides_report ((0 ∷ 2 ∷ [], 3) ∷ (1 ∷ 3 ∷ [], 2) ∷ []))
        ≡ codes "graph 2\nmodel exact\nmark optimal\nlower 2\nupper 2\npath 3 s a t\npath 2 s b t\ncert wide 2\nedge s a\nedge s b\nend\n" }
    ensures falling { is_regular two_sides (sides_report ((0 ∷ 2 ∷ [], 3) ∷ (1 ∷ 3 ∷ [], 2) ∷ [])) ≡ true }
    ensures rising { is_regular two_sides (sides_report ((1 ∷ 3 ∷ [], 2) ∷ (0 ∷ 2 ∷ [], 3) ∷ [])) ≡ false }
    ensures equal { is_regular two_sides (sides_report ((0 ∷ 2 ∷ [], 3) ∷ (1 ∷ 3 ∷ [], 3) ∷ [])) ≡ true }
    ensures twice { is_regular two_sides (sides_report ((0 ∷ 2 ∷ [], 3) ∷ (0 ∷ 2 ∷ [], 3) ∷ [])) ≡ false }
{}

/// Bounds without a certificate; the trail stands there and nowhere else.
pub fn bounds_by_example()
    ensures text { text_of two_sides (open_report 0 Zero (Some one_slot))
        ≡ codes "graph 2\nmodel exact\nmark bounds\nlower 0\nupper 2\npath 3 s a t\npath 2 s b t\ncert none\ntrail 1 0 1\nstep 1\nend\n" }
    ensures regular { is_regular two_sides (open_report 0 Zero (Some one_slot)) ≡ true }
    ensures missing { is_regular two_sides (open_report 0 Zero None) ≡ false }
    ensures extra { is_regular two_sides (trail_report (Some one_slot)) ≡ false }
{}

/// Bounds with a tree and a trail, and a tree that shows that there is no answer.
pub fn tree_by_example()
    ensures text { text_of two_sides (open_report 1 (Tree no_slot) (Some one_slot))
        ≡ codes "graph 2\nmodel exact\nmark bounds\nlower 1\nupper 2\npath 3 s a t\npath 2 s b t\ncert tree 0 0 1\ngap\ntrail 1 0 1\nstep 1\nend\n" }
    ensures regular { is_regular two_sides (open_report 1 (Tree no_slot) (Some one_slot)) ≡ true }
    ensures none { text_of two_sides (infeasible_report (Tree (record { decision = record { slots = 2; limit = None }; tokens = Split 1 ∷ Miss 0 ∷ [] })))
        ≡ codes "graph 2\nmodel exact\nmark infeasible\nlower none\nupper none\ncert tree 2 none 2\nsplit 2\nmiss 1\nend\n" }
    ensures last { is_regular two_sides (infeasible_report (Tree (record { decision = record { slots = 0; limit = None }; tokens = Miss 4294967294 ∷ [] }))) ≡ true }
    ensures above { is_regular two_sides (infeasible_report (Tree (record { decision = record { slots = 0; limit = None }; tokens = Miss 4294967295 ∷ [] }))) ≡ false }
{}

/// Safe runs: rising, a prefix first, none twice, and each a run.
pub fn safe_by_example()
    ensures text { text_of two_sides (safe_report ((0 ∷ 2 ∷ []) ∷ (1 ∷ 3 ∷ []) ∷ []))
        ≡ codes "graph 2\nmodel exact\nmark optimal\nlower 2\nupper 2\npath 3 s a t\npath 2 s b t\ncert wide 2\nedge s a\nedge s b\nsafe 2\nrun s a t\nrun s b t\nend\n" }
    ensures regular { is_regular two_sides (safe_report ((0 ∷ 2 ∷ []) ∷ (1 ∷ 3 ∷ []) ∷ [])) ≡ true }
    ensures falling { is_regular two_sides (safe_report ((1 ∷ 3 ∷ []) ∷ (0 ∷ 2 ∷ []) ∷ [])) ≡ false }
    ensures prefix { is_regular two_sides (safe_report ((0 ∷ []) ∷ (0 ∷ 2 ∷ []) ∷ [])) ≡ true }
    ensures twice { is_regular two_sides (safe_report ((0 ∷ []) ∷ (0 ∷ []) ∷ [])) ≡ false }
    ensures apart { is_regular two_sides (safe_report ((0 ∷ 3 ∷ []) ∷ [])) ≡ false }
{}

/// The vertices of a cut: rising, none twice, and each a vertex.
pub fn cut_by_example()
    ensures entering { text_of two_sides (infeasible_report (Cut Entering (1 ∷ 2 ∷ [])))
        ≡ codes "graph 2\nmodel exact\nmark infeasible\nlower none\nupper none\ncert cut in 2\nvertex a\nvertex b\nend\n" }
    ensures leaving { text_of two_sides (infeasible_report (Cut Leaving (3 ∷ [])))
        ≡ codes "graph 2\nmodel exact\nmark infeasible\nlower none\nupper none\ncert cut out 1\nvertex t\nend\n" }
    ensures regular { is_regular two_sides (infeasible_report (Cut Entering (1 ∷ 2 ∷ []))) ≡ true }
    ensures twice { is_regular two_sides (infeasible_report (Cut Entering (1 ∷ 1 ∷ []))) ≡ false }
    ensures outside { is_regular two_sides (infeasible_report (Cut Leaving (4 ∷ []))) ≡ false }
{}

/// The edge of a crowd, and its rules, counted from 1.
pub fn crowd_by_example()
    ensures text { text_of two_sides (infeasible_report (Crowd 2 (0 ∷ 9 ∷ [])))
        ≡ codes "graph 2\nmodel exact\nmark infeasible\nlower none\nupper none\ncert crowd a t 2\nrule 1\nrule 10\nend\n" }
    ensures regular { is_regular two_sides (infeasible_report (Crowd 2 (0 ∷ 9 ∷ []))) ≡ true }
    ensures falling { is_regular two_sides (infeasible_report (Crowd 2 (9 ∷ 0 ∷ []))) ≡ false }
    ensures outside { is_regular two_sides (infeasible_report (Crowd 4 (0 ∷ []))) ≡ false }
    ensures above { is_regular two_sides (infeasible_report (Crowd 2 (4294967295 ∷ []))) ≡ false }
{}

/// The first bad line of a text, and why it is bad.
pub fn bad_lines_by_example()
    ensures right { first_bad_line one_edge (text_of one_edge optimal_report) ≡ None }
    ensures refused { first_bad_line empty_labels (text_of empty_labels refused_report) ≡ None }
    ensures form { first_bad_line one_edge (codes "graph 1\nmodel  exact\n") ≡ Some (2, BadForm) }
    ensures behind { first_bad_line empty_labels (codes "graph 1 x\nmodel exact\nrefused 3 Unconserved\nend\nx") ≡ Some (5, BadForm) }
    ensures number { first_bad_line one_edge (codes "graph 01\n") ≡ Some (1, BadNumber) }
    ensures name { first_bad_line one_edge (codes "graph 1\nmodel exact\nmark optimal\nlower 1\nupper 1\npath 5 s t\ncert wide 1\nedge t s\nend\n") ≡ Some (8, BadName) }
    ensures order { first_bad_line one_edge (codes "graph 1\nmodel exact\nmark optimal\nlower 1\nupper 1\npath 5 s t\npath 5 s t\n") ≡ Some (7, BadOrder) }
    ensures cut { first_bad_line one_edge (codes "graph 1\nmodel exact\nmark") ≡ Some (3, NoEnd) }
{}
