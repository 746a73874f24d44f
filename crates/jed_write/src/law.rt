ghost use Rattle.std.specs.Prelude.{◌≡◌, ℕ, Bool, List, ◌++◌, length, IsTrue, Ok};
ghost use Rattle.std.specs.List.{AllByRecursion};
ghost use Rattle.mig_base.specs.declared.kinds.Kind.{Kind as ChipKind};
ghost use Rattle.mig_base.specs.DeviceTables.{has_count};
ghost use Rattle.mig_base.specs.FuseText.{Lacks, fuses_of_text};
ghost use Rattle.mig_base.specs.WrittenFuses.{written_fuses};

/// What is written of fuses is read as these fuses, whatever stands before it but STX.
pub fn read_back()
    ensures { (kind : ChipKind) (bits : List Bool) (before : List ℕ) → IsTrue (has_count kind (length bits)) → Lacks 2 before →
        fuses_of_text (before ++ written_fuses kind bits) ≡ Ok bits }
{}
