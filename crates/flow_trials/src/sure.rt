//! Runs of the two programs over inputs and outputs of which no call fails.
ghost use Rattle.std.specs.Prelude.{◌≡◌, ◌⊎◌, IfSome, IfNone, IsNone, length, max};
ghost use Rattle.flow_io.specs.Memory.{held_by};
ghost use Rattle.flow_trials.specs.Sure.{EndsSurely};
ghost use Rattle.flowpaths_cli.specs.Generated.{EndsSolved};
ghost use Rattle.flowpaths_cli.specs.Words.{texts, settings_of};
ghost use Rattle.flowcheck_cli.specs.Words.{names_of};

use flow_io::{Status, SureInputs, SureOutput};
use flowcheck_cli::flowcheck;
use flowpaths_cli::flowpaths;
use std::alloc::Global;

/// Runs `flowpaths` on these words over two named texts. No call of its inputs or outputs fails, so it ends with no fault: it comes to the
/// end of a text that is short enough, and stops at the limit in a longer one, unless memory is wanting.
pub fn flowpaths_surely(
    alloc: Global,
    words: &[String],
    n1: &str,
    b1: &[u8],
    n2: &str,
    b2: &[u8],
) -> Status
    // The input that the words name is one of the two.
    requires { IfSome (settings_of (texts words.now)) (λ s. IfNone s.demo ((s.file ≡ n1.now) ⊎ (s.file ≡ n2.now))) }
    ensures refused { IsNone (settings_of (texts words.now)) → (result ≡ Status.Words) ⊎ (result ≡ Status.Memory) }
    ensures read { IfSome (settings_of (texts words.now)) (λ s. IfNone s.demo
        (EndsSurely (length (held_by n1.now b1.now n2.now b2.now s.file)) result)) }
    ensures generated { IfSome (settings_of (texts words.now)) (λ s. IfSome s.demo (λ seed. EndsSolved result ⊥)) }
{
    let mut inputs = SureInputs::new(n1, b1, n2, b2);
    let mut out = SureOutput::new();
    let mut notes = SureOutput::new();
    flowpaths(alloc, words, &mut inputs, &mut out, &mut notes)
}

/// Runs `flowcheck` on these words over two named texts. No call of its inputs or outputs fails, so it ends with no fault: it comes to the
/// ends of two texts that are short enough, and stops at the limit where one is longer, unless memory is wanting.
pub fn flowcheck_surely(
    alloc: Global,
    words: &[String],
    n1: &str,
    b1: &[u8],
    n2: &str,
    b2: &[u8],
) -> Status
    // The inputs that the words name are among the two.
    requires { IfSome (names_of (texts words.now)) (λ names. ((names.graph ≡ n1.now) ⊎ (names.graph ≡ n2.now))
        × ((names.report ≡ n1.now) ⊎ (names.report ≡ n2.now))) }
    ensures refused { IsNone (names_of (texts words.now)) → result ≡ Status.Words }
    ensures read { IfSome (names_of (texts words.now)) (λ names. EndsSurely
        (max (length (held_by n1.now b1.now n2.now b2.now names.graph)) (length (held_by n1.now b1.now n2.now b2.now names.report))) result) }
{
    let mut inputs = SureInputs::new(n1, b1, n2, b2);
    let mut out = SureOutput::new();
    let mut notes = SureOutput::new();
    flowcheck(alloc, words, &mut inputs, &mut out, &mut notes)
}
