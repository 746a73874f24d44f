//! A planned board places the units of the old one.
#![tactic(auto)]

ghost use Rattle.std.specs.Prelude.{◌≡◌, ℕ, true, false, List, Some, None, slice_get};
ghost use Rattle.mig_base.specs.declared.levels.Level.{Level};
ghost use Rattle.mig_base.specs.declared.circuit.Read.{Read};
ghost use Rattle.mig_base.specs.declared.circuit.Literal.{Literal};
ghost use Rattle.mig_base.specs.declared.circuit.Circuit.{Circuit};
ghost use Rattle.mig_base.specs.declared.circuit.Gate.{Gate};
ghost use Rattle.mig_base.specs.Boards.{ChipUnit, driver_of, low_pin};
ghost use Rattle.mig_base.specs.DeviceTables.{is_22, is_v8};
ghost use Rattle.mig_base.specs.Given.{IsGiven};
ghost use Rattle.mig_base.specs.Values.{row_reads};
ghost use Rattle.board.specs.Joined.{Joined, equations_of};
ghost use Rattle.new_board.specs.NewChip.{NewChip, enable_net, gate_products, placed_register};
ghost use Rattle.new_board.proofs.WellMade.{IsFitChip};
ghost use Rattle.plans.specs.Placings.{old};
ghost use Rattle.plans.specs.Fitting.{new_board};
ghost use Rattle.plans.specs.UnitBreaches.{share_row};
ghost use Rattle.fitting_levels.specs.NodeValues.{NodeLevels, gate_by};
ghost use Rattle.carried_boards.specs.Carries.{Numbers};
ghost use Rattle.placed_boards.specs.Places.{IsPart, IsPlacedUnit};
ghost use Rattle.placed_boards.specs.Rows.{AreRows};
ghost use Rattle.new_circuits.specs.NewNumbers.{new_wiring, new_units, numbers_of, IsNewUnit};
ghost use Rattle.planned_boards.specs.Planned.{HasPartRows, IsEnablePin, IsPlannedChip};

/// On the new board a combinational unit whose rows are rows of its old unit's parts has that unit's enable and logic.
pub fn combinational_units_are_placed()
    ensures { (b : Joined) (absorbed : List ℕ) (chips : List NewChip) → IsGiven (new_board b chips).net (new_board b chips).chips →
        (v : ℕ) (u : ChipUnit) → slice_get (new_units b chips) v ≡ Some u → (n : IsNewUnit b chips u) → IsFitChip (old b) n.chip → HasPartRows b absorbed n.unit →
        placed_register (equations_of b) n.unit ≡ None →
        IsPlacedUnit (equations_of b) absorbed (numbers_of b chips) v (driver_of (new_wiring b chips) (new_units b chips) u) }
{}

/// On the new board a registered unit of a 22V10 whose rows are rows of its old unit's parts has that unit's enable, and shows the
/// register that stands for its old one, as it did.
pub fn registered_units_on_22v10_are_placed()
    ensures { (b : Joined) (absorbed : List ℕ) (chips : List NewChip) → IsGiven (new_board b chips).net (new_board b chips).chips →
        (v : ℕ) (u : ChipUnit) → slice_get (new_units b chips) v ≡ Some u → (n : IsNewUnit b chips u) → IsFitChip (old b) n.chip → HasPartRows b absorbed n.unit →
        (k : ℕ) → placed_register (equations_of b) n.unit ≡ Some k → is_22 n.chip.kind ≡ true →
        IsPlacedUnit (equations_of b) absorbed (numbers_of b chips) v (driver_of (new_wiring b chips) (new_units b chips) u) }
{}

/// On the new board a registered unit of a V8 has its old unit's enable by the enable pin of its chip, and shows the register that
/// stands for its old one, as it did.
pub fn registered_units_on_v8_are_placed()
    ensures { (b : Joined) (absorbed : List ℕ) (chips : List NewChip) → IsGiven (new_board b chips).net (new_board b chips).chips →
        (v : ℕ) (u : ChipUnit) → slice_get (new_units b chips) v ≡ Some u → (n : IsNewUnit b chips u) → IsFitChip (old b) n.chip → IsPlannedChip b absorbed n.chip →
        (k : ℕ) → placed_register (equations_of b) n.unit ≡ Some k → is_v8 n.chip.kind ≡ true →
        IsPlacedUnit (equations_of b) absorbed (numbers_of b chips) v (driver_of (new_wiring b chips) (new_units b chips) u) }
{}

/// A row that has the literals of a part's row is a row of that part.
pub fn shared_rows_are_rows()
    ensures { (c : Circuit) (absorbed : List ℕ) (level : NodeLevels → Level) (reads : List Read) (ps qs : List (List Literal)) → share_row ps qs ≡ true →
        AreRows c absorbed level reads ps false → AreRows c absorbed level reads qs false }
{}

/// The enable pin of a V8 that stands on the net of a unit's enable is a row of that part: of a complement, of no literal on GND,
/// of no product on VCC.
pub fn enable_pins_are_rows()
    ensures { (b : Joined) (absorbed : List ℕ) (numbers : Numbers) (m net : ℕ) → IsEnablePin numbers m net → (level : NodeLevels → Level) (reads : List Read) (gate : Gate) →
        enable_net (old b) gate ≡ Some net → AreRows (equations_of b) absorbed level reads (gate_products gate) false →
        IsPart (equations_of b) absorbed numbers level reads (λ f. gate_by f (low_pin m)) (row_reads (low_pin m)) }
{}
