//! The definitions at worked examples, which the check computes.
ghost use Rattle.std.specs.Prelude.{◌≡◌, ◌++◌, codes, [], ◌∷◌, Ok, Err, replicate};
ghost use Rattle.node_weights.specs.declared.node_fault.NodeWhy.TheVariants.{LongLine, BadLine, BadWeight, RepeatedNode, UnknownNode, RepeatedEdge, Cycle};
ghost use Rattle.node_weights.specs.NodeText.{read};
ghost use Rattle.node_weights.specs.SplitText.{split_text};

/// Texts are read as node graphs.
pub fn node_texts_are_read()
    ensures tree { read (codes "node a 5\nnode b 3\nnode c 2\nedge a b\nedge a c\n")
        ≡ Ok (record { names = codes "a" ∷ codes "b" ∷ codes "c" ∷ []; weights = 5 ∷ 3 ∷ 2 ∷ []; edges = (0, 1) ∷ (0, 2) ∷ [] }) }
    ensures empty { read [] ≡ Ok (record { names = []; weights = []; edges = [] }) }
    ensures comments { read (codes "# x\n\n \t\n  #S a b\n#node a 5") ≡ read [] }
    ensures spelling { read (codes "\tnode  a 007.0\r\n\r\nnode b 0\nedge b a") ≡ read (codes "node a 7\nnode b 0\nedge b a\n") }
    ensures between { read (codes "node b 1\nnode a 1\nedge a b\nnode c 1\nedge c a\n")
        ≡ Ok (record { names = codes "b" ∷ codes "a" ∷ codes "c" ∷ []; weights = 1 ∷ 1 ∷ 1 ∷ []; edges = (1, 0) ∷ (2, 1) ∷ [] }) }
{}

/// Of the lines that are refused the first counts, on it the cause that stands first, and a cycle after all others.
pub fn first_refusals_count()
    ensures two_fields { read (codes "# x\nnode a\n") ≡ Err (2, BadLine) }
    ensures other_word { read (codes "vertex a 5\n") ≡ Err (1, BadLine) }
    ensures fraction { read (codes "node a 5.5\n") ≡ Err (1, BadWeight) }
    ensures great { read (codes "node a 1000000000000\nnode b 1000000000001\n") ≡ Err (2, BadWeight) }
    ensures node_again { read (codes "node a 1\n\nnode a 2\n") ≡ Err (3, RepeatedNode) }
    ensures unknown { read (codes "node a 5\nedge a b\n") ≡ Err (2, UnknownNode) }
    ensures early { read (codes "node a 5\nedge b a\nnode b 5\n") ≡ Err (2, UnknownNode) }
    ensures edge_again { read (codes "node a 1\nnode b 1\nedge a b\nedge a b\n") ≡ Err (4, RepeatedEdge) }
    ensures back { read (codes "node a 1\nnode b 1\nedge a b\nedge b a\n") ≡ Err (4, Cycle) }
    ensures itself { read (codes "node a 1\nedge a a\n") ≡ Err (2, Cycle) }
    ensures cycle_last { read (codes "node a 1\nedge a a\nnode a 1\n") ≡ Err (3, RepeatedNode) }
    ensures first_line { read (codes "node a x\nnode a\n") ≡ Err (1, BadWeight) }
    ensures first_cause { read (codes "node a 1\nnode a x\n") ≡ Err (2, BadWeight) }
    ensures long { read (codes "#" ++ replicate 65536 97) ≡ Err (1, LongLine) }
    ensures blank { read (replicate 65537 32 ++ codes "\nnode\n") ≡ Err (2, BadLine) }
{}

/// Node graphs have these texts of their split graphs.
pub fn node_graphs_are_split()
    ensures tree { split_text (record { names = codes "a" ∷ codes "b" ∷ codes "c" ∷ []; weights = 5 ∷ 3 ∷ 2 ∷ []; edges = (0, 1) ∷ (0, 2) ∷ [] })
        ≡ codes "# nodes\n6\nia oa 5 5\nib ob 3 3\nic oc 2 2\noa ib 0 5\noa ic 0 5\n" }
    ensures weightless { split_text (record { names = codes "a" ∷ codes "b" ∷ []; weights = 0 ∷ 0 ∷ []; edges = (1, 0) ∷ [] })
        ≡ codes "# nodes\n4\nia oa 0 0\nib ob 0 0\nob ia 0 1\n" }
    ensures empty { split_text (record { names = []; weights = []; edges = [] }) ≡ codes "# nodes\n0\n" }
{}
