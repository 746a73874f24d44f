//! The nets, units and registers of a planned board, by those of the old board that they stand for.
#![tactic(auto)]

ghost use Rattle.std.specs.Prelude.{◌≡◌, ◌<◌, ◌≤◌, ℕ, List, Some, slice_get};
ghost use Rattle.std.specs.List.{AllByRecursion};
ghost use Rattle.mig_base.specs.declared.circuit.Literal.{Literal};
ghost use Rattle.mig_base.specs.Among.{Among};
ghost use Rattle.mig_base.specs.Reads.{IsNode};
ghost use Rattle.mig_base.specs.Values.{product_reads};
ghost use Rattle.mig_base.specs.Boards.{ChipUnit, net_of};
ghost use Rattle.mig_base.specs.DeviceTables.{ordinary_pins};
ghost use Rattle.board.specs.Joined.{Joined, equations_of};
ghost use Rattle.new_board.specs.NewChip.{NewChip};
ghost use Rattle.new_board.specs.InputPins.{pin_net};
ghost use Rattle.new_board.proofs.Columns.{IsReadable, RegistersFit};
ghost use Rattle.plans.specs.Placings.{old};
ghost use Rattle.plans.specs.Fitting.{new_board};
ghost use Rattle.placed_boards.specs.Rows.{IsSeenAs};
ghost use Rattle.new_circuits.specs.NewNumbers.{new_literals, new_wiring, new_units, numbers_of, old_nets, IsNewUnit};

/// The net of a pin of a new chip stands for the old net that the pin stands on, and for none where it stands on none.
pub fn pins_keep_their_nets()
    ensures { (b : Joined) (chips : List NewChip) (j : ℕ) (chip : NewChip) (pin : ℕ) → slice_get chips j ≡ Some chip → Among pin (ordinary_pins chip.kind) →
        slice_get (old_nets b chips) (net_of (new_wiring b chips) (j, pin)) ≡ Some (pin_net (old b) chip pin) }
{}

/// A pin on GND or VCC stays there, and no other pin comes there.
pub fn constants_keep_their_numbers()
    ensures { (b : Joined) (chips : List NewChip) (j : ℕ) (chip : NewChip) (pin : ℕ) → slice_get chips j ≡ Some chip → Among pin (ordinary_pins chip.kind) →
        (n : ℕ) → pin_net (old b) chip pin ≡ Some n → (n < 2 → net_of (new_wiring b chips) (j, pin) ≡ n) × (2 ≤ n → 2 ≤ net_of (new_wiring b chips) (j, pin)) }
{}

/// Each unit of the new board is that of a placed unit on its pin.
pub fn new_units_are_placed()
    ensures { (b : Joined) (chips : List NewChip) (v : ℕ) (u : ChipUnit) → slice_get (new_units b chips) v ≡ Some u → IsNewUnit b chips u }
{}

/// A product of a new chip, on the new board, has the literals of the product over old variables that it comes from: where each
/// variable has a pin that reads it, and all that the new product reads are nodes of the new board.
pub fn new_products_are_seen()
    ensures { (b : Joined) (chips : List NewChip) (j : ℕ) (chip : NewChip) → slice_get chips j ≡ Some chip → (lits : List Literal) →
        RegistersFit (old b) chip → IsReadable (old b) chip lits → AllByRecursion (IsNode (equations_of (new_board b chips))) (product_reads (new_literals b chips j chip lits)) →
        IsSeenAs (equations_of b) (numbers_of b chips) (new_literals b chips j chip lits) lits }
{}
