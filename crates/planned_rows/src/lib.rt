//! The forms of a placed unit are rows of its parts.
#![tactic(auto)]

ghost use Rattle.std.specs.Prelude.{◌≡◌, ◌≢◌, ℕ, false, List, Some, slice_get};
ghost use Rattle.mig_base.specs.declared.plans.Part.{Part};
ghost use Rattle.mig_base.specs.declared.plans.Part.TheVariants.{Logic};
ghost use Rattle.mig_base.specs.declared.circuit.Gate.{Gate};
ghost use Rattle.mig_base.specs.declared.circuit.Driver.{Driver};
ghost use Rattle.mig_base.specs.Given.{IsGiven};
ghost use Rattle.mig_base.specs.Values.{sum_reads};
ghost use Rattle.board.specs.Joined.{Joined, equations_of};
ghost use Rattle.joiner.specs.AbsorbedNets.{AreAbsorbable};
ghost use Rattle.new_board.specs.NewChip.{gate_products};
ghost use Rattle.plans.specs.Forms.{Room, LogicForm, IsForm, IsGate};
ghost use Rattle.placed_boards.specs.Rows.{AreRows};
ghost use Rattle.joined_rows.specs.PartRows.{raw_part, part_level};

/// The form of a unit's Logic, of its old products, of a cover or of an inverted cover, is rows of that part, inverted as it says.
pub fn forms_are_rows()
    ensures { (b : Joined) (absorbed : List ℕ) → IsGiven b.net b.chips → AreAbsorbable b absorbed → (u : ℕ) (d : Driver) → slice_get (equations_of b).units u ≡ Some d →
        (room : Room) (x : LogicForm) → IsForm b absorbed u room x →
        AreRows (equations_of b) absorbed (part_level (equations_of b) d Logic) (sum_reads (raw_part (equations_of b) d Logic)) x.terms x.low }
{}

/// The row of a unit's Enable, Reset or Preset is a row of that part.
pub fn gates_are_rows()
    ensures { (b : Joined) (absorbed : List ℕ) → IsGiven b.net b.chips → AreAbsorbable b absorbed → (u : ℕ) (d : Driver) → slice_get (equations_of b).units u ≡ Some d →
        (part : Part) → part ≢ Logic → (gate : Gate) → IsGate b absorbed u part gate →
        AreRows (equations_of b) absorbed (part_level (equations_of b) d part) (sum_reads (raw_part (equations_of b) d part)) (gate_products gate) false }
{}
