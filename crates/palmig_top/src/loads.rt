ghost use Rattle.std.specs.Prelude.{◌≡◌, ◌≤◌, ◌++◌, ◌∷◌, [], ℕ, List, Option, IfOk, MatchResult, vec_len};
ghost use Rattle.std.specs.Option.{option_map};
ghost use Rattle.mig_base.specs.Names.{file_name_of};
ghost use Rattle.mig_base.specs.Limits.{most_file_bytes};
ghost use Rattle.verdicts.specs.HeldBoard.{net_file, jed_file};
ghost use Rattle.verdicts.specs.JudgedBoard.{loaded, wiring_of, wiring_held, chip_of, chip_held, chips_held, LoadsChips};
ghost use Rattle.palmig_top.specs.Steps.{Step, Finds};
ghost use Rattle.mig_base.specs.Given.{AreMade};
ghost use Rattle.palmig_top.specs.Reading.{IsReadWiring, IsReadCells};

use answers::{Exit, Refusal};
use chip_kinds::cells;
use jed_text::read_jed;
use mig_base::{
    ChipCells, ChipError, ChipLine, FileName, JedError, Kind, MOST_FILE_BYTES, Name, Net, NetError,
    Stem, file_name,
};
use mig_io::{Files, LoadError};
use net_text::read_net;
use std::alloc::Global;

/// The name of a file of a board.
pub fn named(
    alloc: Global,
    stem: &Stem,
    chip: Option<&Name>,
    ending: &str,
) -> Result<FileName, Exit>
    ensures { MatchResult result (λ f. f ≡ file_name_of stem.now (option_map (λ c. c.now) chip.entry) ending.now) (λ e. e ≡ Exit.Memory) }
{
    let name = file_name(alloc, stem, chip, ending)?;
    Ok(name)
}

/// A file that was loaded, with its name.
#[derive(Drop)]
pub struct Loaded {
    pub name: FileName,
    pub bytes: Vec<u8>,
}

/// A file of at most so many bytes.
pub fn load<F: Files>(
    alloc: Global,
    files: &mut F,
    name: FileName,
    most: usize,
) -> Result<Loaded, Exit>
    requires { most ≤ 16777216 }
    ensures step { Step (λ r. r.bytes.items) (λ h q. loaded h most name ≡ q) (λ h f. f ≡ name) (F.held files.old) (F.held files.new) (F.counts files.old) (F.counts files.new) result }
    ensures named { IfOk result (λ r. r.name ≡ name) }
    ensures short { IfOk result (λ r. vec_len r.bytes ≤ most) }
{
    match files.load(alloc, &name, most) {
        Ok(bytes) => {
            if bytes.len() <= most {
                Ok(Loaded { name, bytes })
            } else {
                Err(Exit::Refused(Refusal::TooLong(name)))
            }
        }
        Err(LoadError::Missing) => Err(Exit::Missing(name)),
        Err(LoadError::Failed) => Err(Exit::ReadFault(name)),
        Err(LoadError::Memory) => Err(Exit::Memory),
    }
}

/// The wiring in a board file.
fn wiring_in(alloc: Global, file: Loaded) -> Result<Net, Exit>
    requires { vec_len file.bytes ≤ most_file_bytes }
    ensures says { Finds (λ net. net) (λ q. wiring_of file.name file.bytes.items ≡ q) result }
    ensures read { IfOk result (λ net. IsReadWiring net) }
{
    match read_net(alloc, &file.bytes) {
        Ok(net) => Ok(net),
        Err(NetError::Memory) => Err(Exit::Memory),
        Err(e) => Err(Exit::Refused(Refusal::Net(file.name, e))),
    }
}

/// The cells of a chip of this kind in a fuse file.
fn chip_in(alloc: Global, file: Loaded, kind: Kind) -> Result<ChipCells, Exit>
    ensures says { Finds (λ cells. cells) (λ q. chip_of file.name kind file.bytes.items ≡ q) result }
    ensures read { IfOk result (λ cells. IsReadCells kind cells) }
{
    let fuses = match read_jed(alloc, &file.bytes) {
        Ok(fuses) => fuses,
        Err(JedError::Memory) => return Err(Exit::Memory),
        Err(e) => return Err(Exit::Refused(Refusal::Jed(file.name, e))),
    };
    match cells(alloc, kind, &fuses) {
        Ok(cells) => Ok(cells),
        Err(ChipError::Memory) => Err(Exit::Memory),
        Err(e) => Err(Exit::Refused(Refusal::Chip(file.name, e))),
    }
}

/// The wiring of a board.
pub fn read_wiring<F: Files>(alloc: Global, files: &mut F, stem: &Stem) -> Result<Net, Exit>
    ensures step { Step (λ net. net) (λ h q. wiring_held h stem.now ≡ q) (λ h f. f ≡ net_file stem.now) (F.held files.old) (F.held files.new) (F.counts files.old) (F.counts files.new) result }
    ensures read { IfOk result (λ net. IsReadWiring net) }
{
    let name = named(alloc, stem, None, "net")?;
    let file = load(alloc, files, name, MOST_FILE_BYTES)?;
    wiring_in(alloc, file)
}

/// The cells of the chip of this kind in the file of this name.
pub fn read_chip<F: Files>(
    alloc: Global,
    files: &mut F,
    name: FileName,
    kind: Kind,
) -> Result<ChipCells, Exit>
    ensures step { Step (λ cells. cells) (λ h q. chip_held h name kind ≡ q) (λ h f. f ≡ name) (F.held files.old) (F.held files.new) (F.counts files.old) (F.counts files.new) result }
    ensures read { IfOk result (λ cells. IsReadCells kind cells) }
{
    let file = load(alloc, files, name, MOST_FILE_BYTES)?;
    chip_in(alloc, file, kind)
}

/// The cells of a chip of a board.
fn read_chip_of<F: Files>(
    alloc: Global,
    files: &mut F,
    stem: &Stem,
    line: &ChipLine,
) -> Result<ChipCells, Exit>
    ensures step { Step (λ cells. cells) (λ h q. chip_held h (jed_file stem.now line.now.name) line.now.kind ≡ q) (λ h f. f ≡ jed_file stem.now line.now.name)
        (F.held files.old) (F.held files.new) (F.counts files.old) (F.counts files.new) result }
    ensures read { IfOk result (λ cells. IsReadCells line.now.kind cells) }
{
    let name = named(alloc, stem, Some(&line.name), "jed")?;
    read_chip(alloc, files, name, line.kind)
}

/// One more chip, behind the others.
fn add_chip(chips: &mut Vec<ChipCells>, cells: ChipCells) -> Result<(), Exit>
    ensures { MatchResult result (λ _. chips.new.items ≡ chips.old.items ++ cells ∷ []) (λ e. e ≡ Exit.Memory) }
{
    chips.push(cells)?;
    Ok(())
}

/// The cells of each chip of a board.
pub fn read_chips<F: Files>(
    alloc: Global,
    files: &mut F,
    stem: &Stem,
    lines: &[ChipLine],
) -> Result<Vec<ChipCells>, Exit>
    ensures step { Step (λ v. v.items) (λ h q. chips_held h stem.now lines.now ≡ q) (λ h f. LoadsChips h stem.now lines.now f) (F.held files.old) (F.held files.new) (F.counts files.old) (F.counts files.new) result }
    ensures read { IfOk result (λ v. AreMade lines.now v.items) }
{
    let mut chips = Vec::new(alloc);
    for line in lines {
        let cells = read_chip_of(alloc, files, stem, line)?;
        add_chip(&mut chips, cells)?;
    }
    Ok(chips)
}
