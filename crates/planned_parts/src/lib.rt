//! The units and registers of a planned board, and what they read.
#![tactic(auto)]

ghost use Rattle.std.specs.Prelude.{◌≡◌, ◌<◌, ℕ, Bool, true, List, Some, length, slice_get};
ghost use Rattle.mig_base.specs.declared.circuit.Circuit.{Circuit};
ghost use Rattle.mig_base.specs.declared.circuit.Driver.{Driver};
ghost use Rattle.mig_base.specs.declared.circuit.Read.{Read};
ghost use Rattle.mig_base.specs.declared.circuit.Register.{Register};
ghost use Rattle.mig_base.specs.Accepted.{IsAccepted};
ghost use Rattle.mig_base.specs.Among.{Among};
ghost use Rattle.mig_base.specs.Given.{IsGiven};
ghost use Rattle.mig_base.specs.Reads.{edge_reads, node_reads};
ghost use Rattle.structure.specs.Live.{HasRegister};
ghost use Rattle.board.specs.Joined.{Joined, equations_of};
ghost use Rattle.new_board.specs.NewChip.{NewChip};
ghost use Rattle.plans.specs.Fitting.{new_board};
ghost use Rattle.placed_boards.specs.Places.{IsPlacedNet, IsPlacedRegister, IsPlacedUnit, IsSeen};
ghost use Rattle.new_circuits.specs.NewNumbers.{is_seen, numbers_of};
ghost use Rattle.planned_parts.specs.KeptChips.{AreKeptChips};

/// Each unit of the new board has the enable and the logic of its old unit.
pub fn planned_units_are_placed()
    ensures { (b : Joined) (absorbed : List ℕ) (chips : List NewChip) → AreKeptChips b absorbed chips → (v : ℕ) (new : Driver) →
        slice_get (equations_of (new_board b chips)).units v ≡ Some new → IsPlacedUnit (equations_of b) absorbed (numbers_of b chips) v new }
{}

/// Each register of the new board takes what its old one takes, at a clock of the same kind: where nets that aren't absorbed stand
/// for their old ones.
pub fn planned_registers_are_placed()
    ensures { (b : Joined) (absorbed : List ℕ) (live : ℕ → Bool) (chips : List NewChip) → AreKeptChips b absorbed chips → IsAccepted (equations_of b) →
        ((m : ℕ) → is_seen b absorbed chips m ≡ true → IsPlacedNet (equations_of b) (equations_of (new_board b chips)) absorbed live (numbers_of b chips) m) →
        (k : ℕ) (new : Register) → slice_get (equations_of (new_board b chips)).registers k ≡ Some new →
        IsPlacedRegister (equations_of b) (equations_of (new_board b chips)) absorbed (numbers_of b chips) k new }
{}

/// What a node of the new board reads is a register, or a net that stands for an old one.
pub fn planned_reads_are_seen()
    ensures { (b : Joined) (absorbed : List ℕ) (chips : List NewChip) → AreKeptChips b absorbed chips → (v w : Read) →
        Among w (node_reads (equations_of (new_board b chips)) v) → IsSeen (equations_of (new_board b chips)) (is_seen b absorbed chips) w }
{}

/// And so is what a register reads at an edge of its clock.
pub fn planned_edges_are_seen()
    ensures { (b : Joined) (absorbed : List ℕ) (chips : List NewChip) → AreKeptChips b absorbed chips → (k : ℕ) (r : Register) (w : Read) →
        slice_get (equations_of (new_board b chips)).registers k ≡ Some r → Among w (edge_reads r) → IsSeen (equations_of (new_board b chips)) (is_seen b absorbed chips) w }
{}

/// Each register of a board is that of a unit.
pub fn registers_have_owners()
    ensures { (b : Joined) → IsGiven b.net b.chips →
        (owner : ℕ → ℕ) × ((k : ℕ) → k < length (equations_of b).registers → HasRegister k (slice_get (equations_of b).units (owner k))) }
{}
