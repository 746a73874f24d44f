ghost use Rattle.std.specs.Prelude.{◌≡◌, ℕ, List, Option, Ok, IfOk, MatchResult};
ghost use Rattle.answers.specs.declared.words.Command.TheVariants as command;
ghost use Rattle.verdicts.specs.commands.List.{prepared_listing, listed_outcome, LoadsListing};
ghost use Rattle.verdicts.specs.Clauses.{Keeps};
ghost use Rattle.palmig_top.specs.Steps.{Step, IsEnd};
ghost use Rattle.palmig_top.specs.Preparing.{outcome_in};

use crate::concluding::conclude;
use crate::loads::{named, read_chip};
use crate::prepared::Prepared;
use answers::{Exit, Listing};
use listing::listing as listing_of;
use mig_base::{ChipCells, Items};
use mig_io::{Files, Sink};
use std::alloc::Global;

/// Nothing to save, and the listing of these cells.
fn listed(alloc: Global, cells: &ChipCells) -> Result<Prepared, Exit>
    ensures { MatchResult result (λ p. outcome_in p ≡ listed_outcome cells.now) (λ e. e ≡ Exit.Memory) }
{
    let report = listing_of(alloc, cells)?;
    Ok(Prepared {
        answer: Exit::Done,
        saves: Items::new(Vec::new(alloc)),
        report,
    })
}

/// Loads a chip and lists it.
fn prepare_listing<F: Files>(
    alloc: Global,
    files: &mut F,
    listing: &Listing,
) -> Result<Prepared, Exit>
    ensures step { Step outcome_in (λ h q. prepared_listing listing.now h ≡ q) (LoadsListing listing.now) (F.held files.old) (F.held files.new) (F.counts files.old) (F.counts files.new) result }
    ensures end { IfOk result (λ p. IsEnd (outcome_in p)) }
{
    let name = named(alloc, &listing.stem, listing.chip.as_ref(), "jed")?;
    let cells = read_chip(alloc, files, name, listing.kind)?;
    listed(alloc, &cells)
}

/// `list`.
pub fn list<F: Files, O: Sink>(alloc: Global, files: &mut F, out: &mut O, listing: &Listing) -> Exit
    ensures { Keeps (record {
      said = Ok (command.List listing.now);
      held = F.held files.old;
      after = F.held files.new;
      before = F.counts files.old;
      now = F.counts files.new;
      sent = O.sent out.old;
      sent_after = O.sent out.new;
      faults = O.faults out.old;
      faults_after = O.faults out.new;
    }) result }
{
    let prepared = prepare_listing(alloc, files, listing);
    conclude(alloc, files, out, prepared)
}
