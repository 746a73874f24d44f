ghost use Rattle.std.specs.Prelude.{◌≡◌, None, map};
ghost use Rattle.std.specs.Option.{option_map};
ghost use Rattle.mig_base.specs.DeviceTables.{kind_named};
ghost use Rattle.mig_base.specs.FuseText.{cut_at};
ghost use Rattle.answers.specs.declared.words.Command.TheVariants as command;
ghost use Rattle.answers.specs.Commands.{IsCommandOf, IsSaid, IsOrUsage, checked_command, checked, overwrites, stem_of, migration_of, planned_migration, chip_listing, listing_at, listing_of, simulation_of, command_on, command_by, command_with};

use crate::{Exit, Refusal};
use mig_base::{Kind, Name, NameError, Stem, kind_of};
use std::alloc::Global;

/// `migrate OLD NEW`, or `migrate OLD NEW PLAN`.
#[derive(Drop)]
pub struct Migration {
    pub old: Stem,
    pub new: Stem,
    pub plan: Option<Stem>,
}

/// `list FILE KIND`: FILE is the stem, and a dot and the chip's name where there is one.
#[derive(Drop)]
pub struct Listing {
    pub stem: Stem,
    pub chip: Option<Name>,
    pub kind: Kind,
}

/// `sim BOARD SCRIPT`.
#[derive(Drop)]
pub struct Simulation {
    pub board: Stem,
    pub script: Stem,
}

/// A command.
#[derive(Drop)]
pub enum Command {
    Migrate(Migration),
    List(Listing),
    /// `check BOARD`.
    Check(Stem),
    Sim(Simulation),
}

/// The stem of this word.
fn stem(alloc: Global, word: &str) -> Result<Stem, Exit>
    ensures { IsOrUsage (stem_of word.now) result }
{
    match Stem::new(alloc, word.as_bytes()) {
        Ok(stem) => Ok(stem),
        Err(NameError::Bad) => Err(Exit::Usage),
        Err(NameError::Memory) => Err(Exit::Memory),
    }
}

/// The stems of a migration.
fn read_migration(alloc: Global, old: &str, new: &str) -> Result<Migration, Exit>
    ensures { IsOrUsage (migration_of old.now new.now) result }
{
    let old = stem(alloc, old)?;
    let new = stem(alloc, new)?;
    Ok(Migration {
        old,
        new,
        plan: None,
    })
}

/// The stems of a migration by a handed plan.
fn read_planned(alloc: Global, old: &str, new: &str, plan: &str) -> Result<Migration, Exit>
    ensures { IsOrUsage (planned_migration old.now new.now plan.now) result }
{
    let old = stem(alloc, old)?;
    let new = stem(alloc, new)?;
    let plan = stem(alloc, plan)?;
    Ok(Migration {
        old,
        new,
        plan: Some(plan),
    })
}

/// What stands before the first dot of a word, and behind it.
fn cut_at_dot(word: &str) -> Option<(&str, &str)>
    ensures { option_map (λ p. (p.0.now, p.1.now)) result ≡ cut_at 46 word.now }
{
    word.split_once('.')
}

/// The file of a stem alone.
fn whole_file(alloc: Global, word: &str, kind: Kind) -> Result<Listing, Exit>
    ensures { IsOrUsage (listing_at word.now None kind) result }
{
    let stem = stem(alloc, word)?;
    Ok(Listing {
        stem,
        chip: None,
        kind,
    })
}

/// The file of a stem and a chip.
fn chip_file(alloc: Global, front: &str, name: &str, kind: Kind) -> Result<Listing, Exit>
    ensures { IsOrUsage (chip_listing front.now name.now kind) result }
{
    let Some(chip) = Name::new(name.as_bytes()) else {
        return Err(Exit::Usage);
    };
    let stem = stem(alloc, front)?;
    Ok(Listing {
        stem,
        chip: Some(chip),
        kind,
    })
}

/// The file of a listing. A stem has no dot, and neither has a name.
fn read_file(alloc: Global, word: &str, kind: Kind) -> Result<Listing, Exit>
    ensures { IsOrUsage (listing_at word.now (cut_at 46 word.now) kind) result }
{
    match cut_at_dot(word) {
        None => whole_file(alloc, word, kind),
        Some((front, name)) => chip_file(alloc, front, name, kind),
    }
}

/// The file and the kind of a listing.
fn read_listing(alloc: Global, file: &str, kind: &str) -> Result<Listing, Exit>
    ensures { IsOrUsage (listing_of file.now (kind_named kind.now)) result }
{
    match kind_of(kind.as_bytes()) {
        Some(kind) => read_file(alloc, file, kind),
        None => Err(Exit::Usage),
    }
}

/// Whether the new files would stand under the names of those that are read.
fn is_over(migration: &Migration) -> bool
    ensures { result ≡ overwrites migration.now }
{
    if migration.old.text() == migration.new.text() {
        return true;
    }
    match &migration.plan {
        Some(plan) => plan.text() == migration.new.text(),
        None => false,
    }
}

/// A migration, refused where it would write over what it reads.
fn unless_over(migration: Migration) -> Result<Command, Exit>
    ensures { result ≡ checked (command.Migrate migration) }
{
    if is_over(&migration) {
        return Err(Exit::Refused(Refusal::Clash));
    }
    Ok(Command::Migrate(migration))
}

/// `migrate OLD NEW`, refused where both are the same.
fn migrate(alloc: Global, old: &str, new: &str) -> Result<Command, Exit>
    ensures { IsSaid (checked_command (option_map command.Migrate (migration_of old.now new.now))) result }
{
    let migration = read_migration(alloc, old, new)?;
    unless_over(migration)
}

/// `migrate OLD NEW PLAN`, refused where NEW is one of the others.
fn migrate_by(alloc: Global, old: &str, new: &str, plan: &str) -> Result<Command, Exit>
    ensures { IsSaid (checked_command (option_map command.Migrate (planned_migration old.now new.now plan.now))) result }
{
    let migration = read_planned(alloc, old, new, plan)?;
    unless_over(migration)
}

/// `list FILE KIND`.
fn list(alloc: Global, file: &str, kind: &str) -> Result<Command, Exit>
    ensures { IsSaid (checked_command (option_map command.List (listing_of file.now (kind_named kind.now)))) result }
{
    let listing = read_listing(alloc, file, kind)?;
    Ok(Command::List(listing))
}

/// `check BOARD`.
fn check(alloc: Global, board: &str) -> Result<Command, Exit>
    ensures { IsSaid (checked_command (option_map command.Check (stem_of board.now))) result }
{
    let board = stem(alloc, board)?;
    Ok(Command::Check(board))
}

/// `sim BOARD SCRIPT`.
fn sim(alloc: Global, board: &str, script: &str) -> Result<Command, Exit>
    ensures { IsSaid (checked_command (option_map command.Sim (simulation_of board.now script.now))) result }
{
    let board = stem(alloc, board)?;
    let script = stem(alloc, script)?;
    Ok(Command::Sim(Simulation { board, script }))
}

/// The command of a verb and one word, or what they alone refuse.
fn read_short_command(alloc: Global, verb: &str, board: &str) -> Result<Command, Exit>
    ensures { IsSaid (checked_command (command_on verb.now board.now)) result }
{
    match verb {
        "check" => check(alloc, board),
        _ => Err(Exit::Usage),
    }
}

/// The command of a verb and two words, or what they alone refuse.
fn read_command(alloc: Global, verb: &str, first: &str, second: &str) -> Result<Command, Exit>
    ensures { IsSaid (checked_command (command_by verb.now first.now second.now)) result }
{
    match verb {
        "migrate" => migrate(alloc, first, second),
        "list" => list(alloc, first, second),
        "sim" => sim(alloc, first, second),
        _ => Err(Exit::Usage),
    }
}

/// The command of a verb and three words, or what they alone refuse.
fn read_long_command(
    alloc: Global,
    verb: &str,
    first: &str,
    second: &str,
    third: &str,
) -> Result<Command, Exit>
    ensures { IsSaid (checked_command (command_with verb.now first.now second.now third.now)) result }
{
    match verb {
        "migrate" => migrate_by(alloc, first, second, third),
        _ => Err(Exit::Usage),
    }
}

/// The command of these words, or what they alone refuse.
///
/// # Errors
/// `Usage` where the words are no command, `Clash` where the new files would stand under the names of those that are read; `Memory`.
pub fn read_words(alloc: Global, words: &[&str]) -> Result<Command, Exit>
    ensures { IsCommandOf (map (λ w. w.now) words.now) result }
{
    match words {
        [verb, board] => read_short_command(alloc, verb, board),
        [verb, first, second] => read_command(alloc, verb, first, second),
        [verb, first, second, third] => read_long_command(alloc, verb, first, second, third),
        _ => Err(Exit::Usage),
    }
}
