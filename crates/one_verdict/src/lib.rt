//! The law that what the words of a call come to over files is one thing.
#![tactic(auto)]

ghost use Rattle.one_verdict.specs.OneVerdict.{VerdictIsOne};

/// Two outcomes of the same words over the same files are equal.
pub fn verdict_is_one()
    ensures { VerdictIsOne }
{}
