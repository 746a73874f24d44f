//! The live units of each board are a set: those that can be found, one round after another.
#![tactic(auto)]

ghost use Rattle.std.specs.Prelude.{Bool, List};
ghost use Rattle.mig_base.specs.declared.circuit.Circuit.{Circuit};
ghost use Rattle.structure.specs.Live.{IsLiveness};

/// For each board there are flags that tell which of its units are live.
pub fn every_board_has_liveness()
    ensures { (c : Circuit) → (live : List Bool) × IsLiveness c live }
{}
