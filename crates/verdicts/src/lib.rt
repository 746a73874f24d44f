//! The definitions of what a call comes to: its answer, what it saves and what it reports.
#![tactic(auto)]

ghost use Rattle.verdicts.specs.Laws.{OnlyDoneSaves};

/// Nothing is saved with any answer but Done.
pub fn only_done_saves()
    ensures { OnlyDoneSaves }
{}
