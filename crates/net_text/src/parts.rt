ghost use Rattle.std.specs.Prelude.{◌≡◌, ◌∷◌, ◌++◌, [], List, OnOk};
ghost use Rattle.mig_base.specs.BoardText as spec;
ghost use Rattle.net_text.specs.Statements.{says_of, Judges};

use crate::judging::refusal;
use crate::lines::BoardLine;
use crate::says::Said;
use mig_base::{ChipLine, Kind, Name, NetError, NetLine, Pull};
use std::alloc::{AllocError, Global};

/// The nets, before their pulls, and the chips that lines say.
#[derive(Drop)]
pub(crate) struct Parts {
    pub nets: Vec<NetLine>,
    pub chips: Vec<ChipLine>,
}

/// The nets and chips of the lines, each judged by those before it, or the first refusal.
pub(crate) fn judged(alloc: Global, lines: &[BoardLine]) -> Result<Parts, NetError>
    ensures { Judges lines.now result }
{
    let mut nets = Vec::new(alloc);
    let mut chips = Vec::new(alloc);
    for (i, line) in lines.iter().enumerate() {
        if let Some(error) = refusal(&lines[..i], nets.as_slice(), chips.as_slice(), line) {
            return Err(error);
        }
        if keep_net(&mut nets, line.says).is_err() || keep_chip(&mut chips, line.says).is_err() {
            return Err(NetError::Memory);
        }
    }
    Ok(Parts { nets, chips })
}

fn keep_net(nets: &mut Vec<NetLine>, said: Said) -> Result<(), AllocError>
    ensures { OnOk result (nets.new.items ≡ nets.old.items ++ spec.nets_in (says_of said ∷ [])) }
{
    if let Said::Net { name, port } = said {
        nets.push(NetLine {
            name,
            port,
            pull: Pull::Free,
        })?;
    }
    Ok(())
}

fn keep_chip(chips: &mut Vec<ChipLine>, said: Said) -> Result<(), AllocError>
    ensures { OnOk result (chips.new.items ≡ chips.old.items ++ spec.chips_in (says_of said ∷ [])) }
{
    match said {
        Said::Chip { name, kind } => keep_known(chips, name, kind),
        _ => Ok(()),
    }
}

/// Keeps a chip of a known kind.
fn keep_known(chips: &mut Vec<ChipLine>, name: Name, kind: Option<Kind>) -> Result<(), AllocError>
    ensures { OnOk result (chips.new.items ≡ chips.old.items ++ spec.chips_in (spec.ChipOf name kind ∷ [])) }
{
    if let Some(kind) = kind {
        chips.push(ChipLine { name, kind })?;
    }
    Ok(())
}
