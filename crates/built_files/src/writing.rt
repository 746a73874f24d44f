ghost use Rattle.std.specs.Prelude.{◌≡◌, ◌++◌, ◌∷◌, [], map, IfOk, OnOk};
ghost use Rattle.std.specs.List.{AllByRecursion};
ghost use Rattle.mig_base.specs.WrittenBoard.{IsWritable};
ghost use Rattle.new_board.specs.Files.{fuse_file, last_files};
ghost use Rattle.built_files.specs.BoardFiles.{IsWritableChip, as_file, as_files};

use crate::fuse_text;
use mig_base::{Name, Net, NoMemory, Plan};
use net_text::write_net;
use new_board::FittedChip;
use plan_text::write_plan;
use std::alloc::Global;

/// The fuse text of a chip of this name.
#[derive(Drop)]
pub struct FuseFile {
    pub chip: Name,
    pub bytes: Vec<u8>,
}

/// The texts of a new board: its fuse files in the order of the chips, its plan, and its wiring.
#[derive(Drop)]
pub struct NewFiles {
    pub jeds: Vec<FuseFile>,
    pub plan: Vec<u8>,
    pub net: Vec<u8>,
}

/// Adds the fuse file of a chip.
fn add_fuse_file(alloc: Global, jeds: &mut Vec<FuseFile>, chip: &FittedChip) -> Result<(), NoMemory>
    requires { IsWritableChip chip.now }
    ensures { OnOk result (map as_file jeds.new.items ≡ map as_file jeds.old.items ++ fuse_file chip.now ∷ []) }
{
    let bytes = fuse_text(alloc, &chip.cells)?;
    jeds.push(FuseFile {
        chip: chip.name,
        bytes,
    })?;
    Ok(())
}

/// The fuse files of chips.
fn fuse_files(alloc: Global, chips: &[FittedChip]) -> Result<Vec<FuseFile>, NoMemory>
    requires { AllByRecursion IsWritableChip chips.now }
    ensures { IfOk result (λ jeds. map as_file jeds.items ≡ map fuse_file chips.now) }
{
    let mut jeds = Vec::new(alloc);
    for chip in chips {
        add_fuse_file(alloc, &mut jeds, chip)?;
    }
    Ok(jeds)
}

/// The texts of these chips, of this plan and of this wiring.
pub fn written_files(
    alloc: Global,
    chips: &[FittedChip],
    plan: &Plan,
    net: &Net,
) -> Result<NewFiles, NoMemory>
    requires chips { AllByRecursion IsWritableChip chips.now }
    requires wiring { IsWritable net.now }
    ensures { IfOk result (λ files. as_files files ≡ map fuse_file chips.now ++ last_files plan.now net.now) }
{
    let jeds = fuse_files(alloc, chips)?;
    let plan = write_plan(alloc, plan)?;
    let net = write_net(alloc, net)?;
    Ok(NewFiles { jeds, plan, net })
}
