//! The nets and ports of a planned board place those of the old one.
#![tactic(auto)]

ghost use Rattle.std.specs.Prelude.{◌≡◌, ℕ, Bool, true, false, List, [], map, Some, slice_get};
ghost use Rattle.mig_base.specs.declared.circuit.Driver.{Driver};
ghost use Rattle.mig_base.specs.declared.circuit.NetKind.TheVariants.{Inner};
ghost use Rattle.mig_base.specs.declared.circuit.Wire.{Wire};
ghost use Rattle.mig_base.specs.Accepted.{IsAccepted};
ghost use Rattle.mig_base.specs.Among.{Among};
ghost use Rattle.mig_base.specs.Given.{IsGiven};
ghost use Rattle.board.specs.Joined.{Joined, equations_of};
ghost use Rattle.joiner.specs.AbsorbedNets.{AreAbsorbable};
ghost use Rattle.new_board.specs.NewChip.{NewChip};
ghost use Rattle.new_board.proofs.WellMade.{IsFitChip};
ghost use Rattle.plans.specs.Placings.{old};
ghost use Rattle.plans.specs.Fitting.{new_board};
ghost use Rattle.placed_boards.specs.Places.{IsPlacedNet, IsPlacedUnit};
ghost use Rattle.new_circuits.specs.NewNumbers.{is_seen, numbers_of};
ghost use Rattle.planned_boards.specs.Planned.{ArePlanned};
ghost use Rattle.planned_nets.specs.PlacedOnce.{ArePlacedOnce};

/// A net of the new board that stands for no old one, or for an absorbed one, is no port and has no driver.
pub fn other_nets_are_idle()
    ensures { (b : Joined) (absorbed : List ℕ) (live : ℕ → Bool) (chips : List NewChip) → IsGiven b.net b.chips → IsAccepted (equations_of b) →
        ((c : NewChip) → Among c chips → IsFitChip (old b) c) → ArePlanned b absorbed live chips → ArePlacedOnce b absorbed chips →
        (m : ℕ) (w : Wire) → slice_get (equations_of (new_board b chips)).nets m ≡ Some w → is_seen b absorbed chips m ≡ false → (w.kind ≡ Inner) × (w.drivers ≡ []) }
{}

/// The ports of the old board are those of the new one, in order, and each of these stands for its old one.
pub fn planned_ports_are_the_old()
    ensures { (b : Joined) (absorbed : List ℕ) (chips : List NewChip) → AreAbsorbable b absorbed →
        ((equations_of b).ports ≡ map (numbers_of b chips).net (equations_of (new_board b chips)).ports) ×
        ((m : ℕ) → Among m (equations_of (new_board b chips)).ports → is_seen b absorbed chips m ≡ true) }
{}

/// A net of the new board that stands for an old one has its kind and pull, a driver for each live old one that may drive, and no
/// others.
pub fn planned_nets_are_placed()
    ensures { (b : Joined) (absorbed : List ℕ) (live : ℕ → Bool) (chips : List NewChip) → IsGiven b.net b.chips → IsAccepted (equations_of b) →
        ((c : NewChip) → Among c chips → IsFitChip (old b) c) → ArePlanned b absorbed live chips → ArePlacedOnce b absorbed chips →
        ((v : ℕ) (new : Driver) → slice_get (equations_of (new_board b chips)).units v ≡ Some new → IsPlacedUnit (equations_of b) absorbed (numbers_of b chips) v new) →
        (m : ℕ) → is_seen b absorbed chips m ≡ true → IsPlacedNet (equations_of b) (equations_of (new_board b chips)) absorbed live (numbers_of b chips) m }
{}
