ghost use Rattle.std.specs.Prelude.{◌≡◌, ◌++◌, ◌≤◌, map, length, IfOk, OnOk, string_bytes, Ok};
ghost use Rattle.std.specs.List.{flat_map};
ghost use Rattle.mig_base.specs.Limits.{most_file_bytes};
ghost use Rattle.plan_text.specs.PlanSize.{IsShort};
ghost use Rattle.plan_text.specs.PlanText.{plan_of_text, IsPlan};
ghost use Rattle.mig_base.specs.WrittenBoard.{written_line};
ghost use Rattle.mig_base.specs.WrittenPlan.{written_plan, plan_chip_line, plan_line};

use mig_base::{Mode, NoMemory, Plan, PlanChip, PlanLine, kind_text};
use std::alloc::{AllocError, Global};

/// The text of a plan: the version, the chips, the place and absorb lines in the plan's order, and the end.
/// A short plan fits a file, and a plan that a text can give is read back. Fails for want of memory alone.
pub fn write_plan(alloc: Global, plan: &Plan) -> Result<Vec<u8>, NoMemory>
    ensures written { IfOk result (λ text. text.items ≡ written_plan plan.now) }
    ensures fits { IsShort plan.now → IfOk result (λ text. length text.items ≤ most_file_bytes) }
    ensures read_back { IsPlan plan.now → IfOk result (λ text. plan_of_text text.items ≡ Ok plan.now) }
{
    let mut text = String::from_str(alloc, "plan 1\n")?;
    write_chips(&mut text, plan.chips.items())?;
    write_lines(&mut text, plan.lines.items())?;
    text.push_str("end\n")?;
    Ok(text.into_bytes())
}

/// The new chips.
fn write_chips(text: &mut String, chips: &[PlanChip]) -> Result<(), AllocError>
    ensures { OnOk result (string_bytes text.new ≡ string_bytes text.old ++ flat_map written_line (map plan_chip_line chips.now)) }
{
    for chip in chips {
        write_chip(text, chip)?;
    }
    Ok(())
}

/// The line of a new chip: its name, its kind, and the mode of a V8.
fn write_chip(text: &mut String, chip: &PlanChip) -> Result<(), AllocError>
    ensures { OnOk result (string_bytes text.new ≡ string_bytes text.old ++ written_line (plan_chip_line chip.now)) }
{
    let (name, kind) = (chip.name.text(), kind_text(chip.kind));
    match chip.mode {
        Mode::Fixed => writeln!(text, "chip {name} {kind}"),
        Mode::Simple => writeln!(text, "chip {name} {kind} simple"),
        Mode::Complex => writeln!(text, "chip {name} {kind} complex"),
        Mode::Registered => writeln!(text, "chip {name} {kind} registered"),
    }
}

/// What becomes of each unit.
fn write_lines(text: &mut String, lines: &[PlanLine]) -> Result<(), AllocError>
    ensures { OnOk result (string_bytes text.new ≡ string_bytes text.old ++ flat_map written_line (map plan_line lines.now)) }
{
    for line in lines {
        write_line(text, line)?;
    }
    Ok(())
}

/// What becomes of a unit.
fn write_line(text: &mut String, line: &PlanLine) -> Result<(), AllocError>
    ensures { OnOk result (string_bytes text.new ≡ string_bytes text.old ++ written_line (plan_line line.now)) }
{
    match line {
        PlanLine::Place { unit, chip, pin } => {
            let (old, new) = (unit.chip.text(), chip.text());
            writeln!(text, "place {old}.{} {new}.{pin}", unit.pin)
        }
        PlanLine::Absorb { unit } => {
            let old = unit.chip.text();
            writeln!(text, "absorb {old}.{}", unit.pin)
        }
    }
}
