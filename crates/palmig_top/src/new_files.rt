ghost use Rattle.std.specs.Prelude.{◌≡◌, ◌++◌, ◌∷◌, [], MatchResult, map};
ghost use Rattle.verdicts.specs.commands.Migrate.{done_line};
ghost use Rattle.new_board.specs.Files.{file_under};
ghost use Rattle.built_files.specs.BoardFiles.{as_file, as_files};
ghost use Rattle.palmig_top.specs.Saving.{file_of};

use crate::NewFile;
use crate::loads::named;
use answers::Exit;
use built_files::{FuseFile, NewFiles};
use mig_base::{FileName, Stem};
use std::alloc::{AllocError, Global};

/// One more file, behind the others.
fn add_file(saves: &mut Vec<NewFile>, name: FileName, bytes: Vec<u8>) -> Result<(), Exit>
    ensures { MatchResult result (λ _. map file_of saves.new.items ≡ map file_of saves.old.items ++ (name, bytes.items) ∷ []) (λ e. e ≡ Exit.Memory) }
{
    saves.push(NewFile { name, bytes })?;
    Ok(())
}

/// The fuse file of a new chip.
fn add_fuse_file(
    alloc: Global,
    saves: &mut Vec<NewFile>,
    new: &Stem,
    jed: FuseFile,
) -> Result<(), Exit>
    ensures { MatchResult result (λ _. map file_of saves.new.items ≡ map file_of saves.old.items ++ file_under new.now (as_file jed) ∷ []) (λ e. e ≡ Exit.Memory) }
{
    let FuseFile { chip, bytes } = jed;
    let name = named(alloc, new, Some(&chip), "jed")?;
    add_file(saves, name, bytes)
}

/// The fuse files of the new chips.
fn fuse_files(alloc: Global, new: &Stem, jeds: Vec<FuseFile>) -> Result<Vec<NewFile>, Exit>
    ensures { MatchResult result (λ v. map file_of v.items ≡ map (λ f. file_under new.now (as_file f)) jeds.items) (λ e. e ≡ Exit.Memory) }
{
    let mut saves = Vec::new(alloc);
    for jed in jeds {
        add_fuse_file(alloc, &mut saves, new, jed)?;
    }
    Ok(saves)
}

/// The files of a new board under its stem: one fuse file a chip, the plan, the wiring.
pub fn new_files(alloc: Global, new: &Stem, files: NewFiles) -> Result<Vec<NewFile>, Exit>
    ensures { MatchResult result (λ v. map file_of v.items ≡ map (file_under new.now) (as_files files)) (λ e. e ≡ Exit.Memory) }
{
    let NewFiles {
        jeds,
        plan: plan_text,
        net: net_text,
    } = files;
    let mut saves = fuse_files(alloc, new, jeds)?;
    let plan = named(alloc, new, None, "plan")?;
    add_file(&mut saves, plan, plan_text)?;
    let net = named(alloc, new, None, "net")?;
    add_file(&mut saves, net, net_text)?;
    Ok(saves)
}

/// The report of a migration: the numbers of old and of new chips.
pub fn done_report(alloc: Global, old: usize, new: usize) -> Result<Vec<u8>, AllocError>
    ensures { MatchResult result (λ v. v.items ≡ done_line old new) (λ _. Unit {0}) }
{
    let text = format!(in alloc; "done old {old} new {new}\n")?;
    Ok(text.into_bytes())
}
