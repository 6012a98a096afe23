//! The words at worked examples, which the check computes.
ghost use Rattle.std.specs.Prelude.{◌≡◌, [], ◌∷◌, codes, IsNone};
ghost use Rattle.flowpaths_cli.specs.Words.{settings_of};
ghost use Rattle.decomposition.specs.declared.Mode.TheVariants.{Interval, Abs};
ghost use Rattle.flowpaths_cli.specs.Examples.{naming, naming_safely, naming_in, generating};

/// Words that are taken, and the settings that they give.
#[tactic(auto, unfolding(crate::proofs::OnWords::words_on_literals))]
pub fn words_are_taken()
    ensures none { settings_of [] ≡ naming 20000 (codes "-") }
    ensures file { settings_of (codes "x" ∷ []) ≡ naming 20000 (codes "x") }
    ensures no_name { settings_of (codes "" ∷ []) ≡ naming 20000 [] }
    ensures equals { settings_of (codes "nodes=7" ∷ []) ≡ naming 20000 (codes "nodes=7") }
    ensures next { settings_of (codes "--nodes" ∷ codes "7" ∷ codes "x" ∷ []) ≡ naming 7 (codes "x") }
    ensures same { settings_of (codes "x" ∷ codes "--nodes=7" ∷ codes "--" ∷ []) ≡ naming 7 (codes "x") }
    ensures zeros { settings_of (codes "--nodes=0000000007" ∷ codes "-" ∷ []) ≡ naming 7 (codes "-") }
    ensures greatest { settings_of (codes "--nodes" ∷ codes "1000000" ∷ []) ≡ naming 1000000 (codes "-") }
    ensures behind { settings_of (codes "--nodes" ∷ codes "1" ∷ codes "--" ∷ codes "--nodes" ∷ []) ≡ naming 1 (codes "--nodes") }
    ensures safe { settings_of (codes "--safe" ∷ []) ≡ naming_safely 20000 (codes "-") }
    ensures both { settings_of (codes "x" ∷ codes "--safe" ∷ codes "--nodes=7" ∷ []) ≡ naming_safely 7 (codes "x") }
    ensures exact { settings_of (codes "--model=exact" ∷ []) ≡ naming 20000 (codes "-") }
    ensures ranges { settings_of (codes "--model" ∷ codes "interval" ∷ []) ≡ naming_in Interval (codes "-") }
    ensures errors { settings_of (codes "--paths=3" ∷ codes "--model=abs" ∷ codes "x" ∷ []) ≡ naming_in (Abs 3) (codes "x") }
    ensures seed { settings_of (codes "--demo" ∷ codes "1" ∷ []) ≡ generating 20000 1 }
    ensures seed_and_dash { settings_of (codes "--nodes=7" ∷ codes "--demo=2147483647" ∷ codes "-" ∷ []) ≡ generating 7 2147483647 }
    ensures twice { settings_of (codes "--" ∷ codes "--" ∷ []) ≡ naming 20000 (codes "--") }
{}

/// Words that are refused.
#[tactic(auto, unfolding(crate::proofs::OnWords::words_on_literals))]
pub fn words_are_refused()
    ensures two_files { IsNone (settings_of (codes "x" ∷ codes "--" ∷ codes "y" ∷ [])) }
    ensures two_numbers { IsNone (settings_of (codes "--nodes" ∷ codes "7" ∷ codes "--nodes=7" ∷ [])) }
    ensures two_flags { IsNone (settings_of (codes "--safe" ∷ codes "--safe" ∷ [])) }
    ensures a_value { IsNone (settings_of (codes "--safe=1" ∷ [])) }
    ensures last { IsNone (settings_of (codes "x" ∷ codes "--nodes" ∷ [])) }
    ensures no_value { IsNone (settings_of (codes "--nodes" ∷ codes "--" ∷ codes "7" ∷ [])) }
    ensures no_digits { IsNone (settings_of (codes "--nodes=" ∷ [])) }
    ensures eleven_digits { IsNone (settings_of (codes "--nodes=00000000007" ∷ [])) }
    ensures zero { IsNone (settings_of (codes "--nodes" ∷ codes "0" ∷ [])) }
    ensures greater { IsNone (settings_of (codes "--nodes" ∷ codes "1000001" ∷ [])) }
    ensures sign { IsNone (settings_of (codes "--nodes=+7" ∷ [])) }
    ensures help { IsNone (settings_of (codes "--help" ∷ [])) }
    ensures greater_seed { IsNone (settings_of (codes "--demo" ∷ codes "2147483648" ∷ [])) }
    ensures seed_and_file { IsNone (settings_of (codes "--demo" ∷ codes "1" ∷ codes "x" ∷ [])) }
    ensures seed_and_safe { IsNone (settings_of (codes "--demo" ∷ codes "1" ∷ codes "--safe" ∷ [])) }
    ensures seed_and_model { IsNone (settings_of (codes "--demo" ∷ codes "1" ∷ codes "--model" ∷ codes "interval" ∷ [])) }
    ensures no_paths { IsNone (settings_of (codes "--model" ∷ codes "abs" ∷ [])) }
    ensures not_exact { IsNone (settings_of (codes "--model" ∷ codes "interval" ∷ codes "--safe" ∷ [])) }
    ensures other { IsNone (settings_of (codes "--nodesx=7" ∷ [])) }
{}
