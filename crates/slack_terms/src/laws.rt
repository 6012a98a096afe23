//! Laws over the definitions: each function has an empty body, and its contract is the law.

ghost use Rattle.slack_terms.specs.Laws.{TokensKeepAnswers, RefutationsRefute, TreesBound, AntichainsRefute};
ghost use Rattle.slack_terms.specs.Worked.{WorkedExamples};

/// Each token keeps every answer that some box holds.
pub fn tokens_keep_answers()
    ensures { TokensKeepAnswers }
{}

/// A refutation refutes.
pub fn refutations_refute()
    ensures { RefutationsRefute }
{}

/// A refutation of the limit below a bound shows the bound.
pub fn trees_bound()
    ensures { TreesBound }
{}

/// An antichain of more edges than paths are allowed shows that no answer fits.
pub fn antichains_refute()
    ensures { AntichainsRefute }
{}

/// The definitions compute the worked examples.
pub fn worked_examples()
    ensures { WorkedExamples }
{}
