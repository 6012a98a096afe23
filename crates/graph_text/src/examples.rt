//! The definitions at worked examples, which the check computes.
ghost use Rattle.std.specs.Prelude.{◌≡◌, ◌++◌, codes, [], ◌∷◌, Ok, Err, map, replicate};
ghost use Rattle.decomposition.specs.Graph.{graph_of};
ghost use Rattle.decomposition.specs.declared.Mode.TheVariants.{Exact, Interval};
ghost use Rattle.graph_text.specs.Lines.{lines_of, fields_of};
ghost use Rattle.graph_text.specs.Blocks.{blocks, complete, name_of};
ghost use Rattle.graph_text.specs.Progress.{left_by};
ghost use Rattle.report_terms.specs.declared.refusal.Why.TheVariants.{LongLine, BadCount, BadFields, BadWeight, BadRange, RepeatedEdge, TooManyConstraints, ShortConstraint, Cycle, UnknownEdge, Unconserved};
ghost use Rattle.graph_text.specs.Examples.{reads, run_lines};

/// Lines end with a line feed or with the text, and fields with blanks; what stands in the block and the line in progress.
pub fn lines_are_cut()
    ensures lines { lines_of (codes "# one\n2\r\ns t 5") ≡ codes "# one" ∷ codes "2" ∷ codes "s t 5" ∷ [] }
    ensures fields { fields_of (codes "  s  t 5 ") ≡ codes "s" ∷ codes "t" ∷ codes "5" ∷ [] }
    ensures no_fields { fields_of (codes " \t ") ≡ [] }
    ensures begun { left_by (codes "# a\n2\ns t 1\n #") ≡ record { blocks = 1; line = 4; open_line = codes " #"; ended = [] } }
    ensures goes_on { left_by (codes "\n# a\r\n2\ns #") ≡ record { blocks = 0; line = 4; open_line = codes "s #"; ended = codes "# a" ∷ codes "2" ∷ [] } }
{}

/// A `#` line after a content line begins a block.
pub fn blocks_are_cut()
    ensures smallest { blocks (codes "# one\n2\ns t 5\n") ≡ record { index = 1; line = 1; lines = codes "# one" ∷ codes "2" ∷ codes "s t 5" ∷ [] } ∷ [] }
    ensures headless { blocks (codes "\n \n2") ≡ record { index = 1; line = 3; lines = codes "2" ∷ [] } ∷ [] }
    ensures empty { blocks [] ≡ [] }
    ensures comment { blocks (codes "# only a comment\n") ≡ [] }
    ensures several { blocks (codes "# a\n2\ns t 1\n# b\n2\ns t\n# c\n2\ns t 3\n# bye\n")
        ≡ record { index = 1; line = 1; lines = codes "# a" ∷ codes "2" ∷ codes "s t 1" ∷ [] }
        ∷ record { index = 2; line = 4; lines = codes "# b" ∷ codes "2" ∷ codes "s t" ∷ [] }
        ∷ record { index = 3; line = 7; lines = codes "# c" ∷ codes "2" ∷ codes "s t 3" ∷ [] } ∷ [] }
    ensures complete_ones { complete (codes "# a\n2\ns t 1\n# b\n2\ns t\n# c\n2\ns t 3\n #")
        ≡ blocks (codes "# a\n2\ns t 1\n# b\n2\ns t\n# c\n2\ns t 3\n # bye") }
    ensures none_complete { complete (codes "# a\n2\ns t 1\n \t") ≡ [] }
    ensures names { map name_of (blocks (codes "# a \n2\ns t 1\n #\tb c\n2\n")) ≡ codes "a" ∷ codes "b c" ∷ [] }
{}

/// Blocks are read as graphs, or refused with a line.
pub fn blocks_are_read()
    ensures smallest { reads Exact (codes "# one\n2\ns t 5\n")
        ≡ Ok (record {
          labels = record { names = codes "s" ∷ codes "t" ∷ []; edges = (0, 1) ∷ [] };
          net = graph_of 2 ((0, 1) ∷ []);
          ranges = record { lo = 5; hi = 5 } ∷ [];
          runs = [];
        }) ∷ [] }
    ensures no_edges { reads Exact (codes "# e\n0\n")
        ≡ Ok (record { labels = record { names = []; edges = [] }; net = graph_of 0 []; ranges = []; runs = [] }) ∷ [] }
    ensures zeros { reads Exact (codes "2\ns t 007\n") ≡ reads Exact (codes "2\ns t 7\n") }
    ensures point { reads Exact (codes "# n\r\n\r\n99\r\ns t 10.0") ≡ reads Exact (codes "# n\n99\ns t 10\n") }
    ensures unbalanced { reads Exact (codes "# x\n3\ns a 3\na t 5\n") ≡ Err (record { line = 3; why = Unconserved }) ∷ [] }
    ensures cycle { reads Exact (codes "# x\n2\na b 1\nb a 1\n") ≡ Err (record { line = 4; why = Cycle }) ∷ [] }
    ensures itself { reads Exact (codes "# x\n2\na a 1\n") ≡ Err (record { line = 3; why = Cycle }) ∷ [] }
    ensures fraction { reads Exact (codes "# x\n2\ns t 10.5\n") ≡ Err (record { line = 3; why = BadWeight }) ∷ [] }
    ensures great { reads Exact (codes "# x\n2\ns t 1000000000001\n") ≡ Err (record { line = 3; why = BadWeight }) ∷ [] }
    ensures word { reads Exact (codes "# x\ntwo\n") ≡ Err (record { line = 2; why = BadCount }) ∷ [] }
    ensures fields { reads Exact (codes "# x\n2\ns t 5 6\n") ≡ Err (record { line = 3; why = BadFields }) ∷ [] }
    ensures range { reads Interval (codes "# x\n2\ns t 5 4\n") ≡ Err (record { line = 3; why = BadRange }) ∷ [] }
    ensures bounds { reads Interval (codes "# x\n2\ns t 4 5\n")
        ≡ Ok (record {
          labels = record { names = codes "s" ∷ codes "t" ∷ []; edges = (0, 1) ∷ [] };
          net = graph_of 2 ((0, 1) ∷ []);
          ranges = record { lo = 4; hi = 5 } ∷ [];
          runs = [];
        }) ∷ [] }
    ensures one_weight { reads Interval (codes "# x\n2\ns t 5\n") ≡ Err (record { line = 3; why = BadFields }) ∷ [] }
    ensures repeated { reads Exact (codes "# x\n2\ns t 1\ns t 1\n") ≡ Err (record { line = 4; why = RepeatedEdge }) ∷ [] }
    ensures next { reads Exact (codes "# x\n2\ns t 1\n# y\n2\ns t 1.5\n") ≡ (reads Exact (codes "2\ns t 1\n") ++ Err (record { line = 6; why = BadWeight }) ∷ []) }
{}

/// Constraints are read as runs of the edges below them, or refused with a line.
pub fn constraints_are_read()
    ensures run { reads Exact (codes "# x\n#S s a #t\n#S a #t\n# y\n#S  s\ta #t \n3\ns a 1\na #t 1\n")
        ≡ Ok (record {
          labels = record { names = codes "s" ∷ codes "a" ∷ codes "#t" ∷ []; edges = (0, 1) ∷ (1, 2) ∷ [] };
          net = graph_of 3 ((0, 1) ∷ (1, 2) ∷ []);
          ranges = record { lo = 1; hi = 1 } ∷ record { lo = 1; hi = 1 } ∷ [];
          runs = (0 ∷ 1 ∷ []) ∷ (1 ∷ []) ∷ [];
        }) ∷ [] }
    ensures no_run { reads Exact (codes "# x\n#Sub s t\n2\ns t 1\n") ≡ reads Exact (codes "# x\n2\ns t 1\n") }
    ensures short { reads Exact (codes "# x\n#S s\n2\ns t 1\n") ≡ Err (record { line = 2; why = ShortConstraint }) ∷ [] }
    ensures stranger { reads Exact (codes "# x\n#S s u\n2\ns t 1\n") ≡ Err (record { line = 2; why = UnknownEdge }) ∷ [] }
    ensures backwards { reads Exact (codes "# x\n#S s t\n#S t s\n2\ns t 1\n") ≡ Err (record { line = 3; why = UnknownEdge }) ∷ [] }
    ensures cycle_first { reads Exact (codes "# x\n#S s t\n2\na b 1\nb a 1\n") ≡ Err (record { line = 5; why = Cycle }) ∷ [] }
    ensures unknown_first { reads Exact (codes "# x\n#S s t\n3\ns a 1\na t 2\n") ≡ Err (record { line = 2; why = UnknownEdge }) ∷ [] }
    ensures no_count { reads Exact (codes "# x\n#S a b\n") ≡ Err (record { line = 2; why = BadCount }) ∷ [] }
    ensures short_no_count { reads Exact (codes "# x\n#S a\n") ≡ Err (record { line = 2; why = BadCount }) ∷ [] }
    ensures short_first { reads Exact (codes "# x\n#S a\n# y\n") ≡ Err (record { line = 2; why = ShortConstraint }) ∷ [] }
    ensures word { reads Exact (codes "# x\n#S s t\ntwo\n") ≡ Err (record { line = 3; why = BadCount }) ∷ [] }
{}

/// The refusals past the limits of lines and constraints.
pub fn limits_are_kept()
    ensures constraints { reads Exact (codes "# x\n" ++ run_lines 257 ++ codes "2\ns t 1\n") ≡ Err (record { line = 258; why = TooManyConstraints }) ∷ [] }
    ensures again { reads Exact (codes "# x\n" ++ run_lines 256 ++ codes "#S s v1\n2\ns t 1\n") ≡ Err (record { line = 2; why = UnknownEdge }) ∷ [] }
    ensures long { reads Exact (codes "# x\n2\ns" ++ replicate 65533 32 ++ codes "t 1\n") ≡ Err (record { line = 3; why = LongLine }) ∷ [] }
{}
