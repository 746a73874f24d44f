ghost use Rattle.std.specs.Prelude.{◌≡◌, [], ◌==◌, ◌&&◌};
ghost use Rattle.std.specs.List.{list_any};
ghost use Rattle.std.specs.Str.{bytes_eq};
ghost use Rattle.plans.specs.FirstOf.{GivesFirst, Says, behind};
ghost use Rattle.plans.specs.LineBreaches as spec;
ghost use Rattle.plans.specs.Placings.{chip_named as named_chip};

use mig_base::{Breach, Name, PlanChip, is_cell};

/// The breach of the first chip line whose name an earlier one has.
pub(crate) fn first_chip_twice(chips: &[PlanChip]) -> Option<Breach>
    ensures { GivesFirst (Says spec.chip_twice) (behind [] chips.now) result }
{
    for (i, chip) in chips.iter().enumerate() {
        if any_named(&chips[..i], &chip.name) {
            return Some(Breach::ChipTwice { chip: chip.name });
        }
    }
    None
}

fn any_named(chips: &[PlanChip], name: &Name) -> bool
    ensures { result ≡ list_any (λ d. bytes_eq d.name name.now) chips.now }
{
    chips.iter().any(|c| c.name.bytes() == name.bytes())
}

/// The first chip of this name.
pub(crate) fn chip_named(chips: &[PlanChip], name: &Name) -> Option<PlanChip>
    ensures { result ≡ named_chip chips.now name.now }
{
    for chip in chips {
        if chip.name.bytes() == name.bytes() {
            return Some(*chip);
        }
    }
    None
}

/// Whether a pin of this chip is no macrocell pin, if there is a chip.
pub(crate) fn has_no_cell(chip: Option<PlanChip>, pin: u8) -> bool
    ensures { result ≡ spec.has_no_cell chip pin }
{
    match chip {
        Some(chip) => !is_cell(chip.kind, pin),
        None => false,
    }
}
