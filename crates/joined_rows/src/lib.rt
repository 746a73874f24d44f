//! Rows over the variables of joined parts, as rows of a board's nodes.
#![tactic(auto)]

ghost use Rattle.std.specs.Prelude.{◌≡◌, ◌<◌, ℕ, Bool, true, false, List, Some, slice_get, map, length};
ghost use Rattle.std.specs.List.{All};
ghost use Rattle.bdd.specs.Tree.{Point};
ghost use Rattle.mig_base.specs.declared.plans.Part.{Part};
ghost use Rattle.mig_base.specs.declared.nets.Var.{Var};
ghost use Rattle.mig_base.specs.declared.nets.VarProduct.{VarProduct};
ghost use Rattle.mig_base.specs.declared.circuit.Driver.{Driver};
ghost use Rattle.mig_base.specs.Among.{Among};
ghost use Rattle.mig_base.specs.Given.{IsGiven};
ghost use Rattle.mig_base.specs.Values.{sum_reads};
ghost use Rattle.primes.specs.Prime.{Function, Product, Literal, IsPrime, in_some};
ghost use Rattle.board.specs.Joined.{Joined, equations_of};
ghost use Rattle.rails.specs.Variables.{all_rails, AreRising};
ghost use Rattle.rails.specs.Points.{sum_holds, inverse, IsMonotone};
ghost use Rattle.rails.proofs.ValueLemmas.{AllListed};
ghost use Rattle.joiner.specs.AbsorbedNets.{AreAbsorbable};
ghost use Rattle.joiner.specs.Joined.{unit_part, IsCone};
ghost use Rattle.joiner.specs.JoinedPart.{HasJoinedValue};
ghost use Rattle.placed_boards.specs.Rows.{AreRows};
ghost use Rattle.joined_rows.specs.PartRows.{raw_part, part_level, row_of};
ghost use Rattle.joined_rows.specs.Terms.{term_row};

/// Rows over the variables of a joined part's cone that have its function are rows of that part.
pub fn joined_parts_are_rows()
    ensures { (b : Joined) (absorbed : List ℕ) → IsGiven b.net b.chips → AreAbsorbable b absorbed → (u : ℕ) (d : Driver) (part : Part) →
        slice_get (equations_of b).units u ≡ Some d → (vars : List (Var × Bool)) (f : Point → Bool) → IsCone b absorbed (unit_part b u part).terms vars →
        HasJoinedValue b absorbed (unit_part b u part) vars f → (rows : List VarProduct) → All (AllListed vars) rows →
        ((p : Point) → f p ≡ sum_holds (all_rails vars) rows p) →
        AreRows (equations_of b) absorbed (part_level (equations_of b) d part) (sum_reads (raw_part (equations_of b) d part)) (map (row_of b) rows) false }
{}

/// Those that have the inverse function are rows of that part, inverted.
pub fn inverted_parts_are_rows()
    ensures { (b : Joined) (absorbed : List ℕ) → IsGiven b.net b.chips → AreAbsorbable b absorbed → (u : ℕ) (d : Driver) (part : Part) →
        slice_get (equations_of b).units u ≡ Some d → (vars : List (Var × Bool)) (f : Point → Bool) → IsCone b absorbed (unit_part b u part).terms vars →
        HasJoinedValue b absorbed (unit_part b u part) vars f → (rows : List VarProduct) → All (AllListed vars) rows → IsMonotone (all_rails vars) f →
        ((p : Point) → inverse (all_rails vars) f p ≡ sum_holds (all_rails vars) rows p) →
        AreRows (equations_of b) absorbed (part_level (equations_of b) d part) (sum_reads (raw_part (equations_of b) d part)) (map (row_of b) rows) true }
{}

/// The primes that cover a function which rises with the Booleans of impure variables are rows over its variables, with its function.
pub fn covers_are_rows()
    ensures { (vs : List (Var × Bool)) → AreRising vs → (f : Function) (ts : List Product) → IsMonotone (all_rails vs) f → ((t : Product) → Among t ts → IsPrime f t) →
        ((t : Product) (i : ℕ) (l : Literal) → Among t ts → slice_get t i ≡ Some l → l.0 < length (all_rails vs)) → ((p : Point) → f p ≡ in_some ts p) →
        All (AllListed vs) (map (term_row (all_rails vs)) ts) × ((p : Point) → f p ≡ sum_holds (all_rails vs) (map (term_row (all_rails vs)) ts) p) }
{}
