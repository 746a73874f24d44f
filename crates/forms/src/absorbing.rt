ghost use Rattle.std.specs.Prelude.{◌≡◌, ◌<◌, length, IfOk};
ghost use Rattle.std.specs.List.{list_any};
ghost use Rattle.joiner.specs.AbsorbedNets.{AreAbsorbable, IsAbsorbedTable};
ghost use Rattle.joiner.specs.Joined.{unit_part};
ghost use Rattle.board.specs.Joined.{equations_of};
ghost use Rattle.plans.specs.Forms.{read_absorbed};
ghost use Rattle.forms.specs.Cones.{IsCone, has_unit, read_in_table};

use board::Board;
use joiner::{JoinError, JoinedPart, absorbed_nets, joined_with, unit_at_net};
use mig_base::{Items, Literal, NoMemory, Part, Read};
use std::alloc::Global;

/// Some units of a board that are absorbed, with for each net the one that alone drives it.
#[derive(Drop)]
pub struct Absorbed<'a> {
    pub board: &'a Board,
    pub units: &'a [u32],
    pub nets: Items<Option<u32>>,
}

/// A part of a unit with absorbed nets replaced by what their units give, or the number of its variables where it has more than
/// 32.
#[derive(Drop)]
pub(crate) enum Cone {
    Narrow(JoinedPart),
    Wide { count: u32 },
}

impl<'a> Absorbed<'a> {
    /// Units by number that may be absorbed. Fails for want of memory alone.
    pub fn new(alloc: Global, board: &'a Board, units: &'a [u32]) -> Result<Absorbed<'a>, NoMemory>
        requires { AreAbsorbable board.now units.now }
        ensures board { IfOk result (λ absorbed. absorbed.board.now ≡ board.now) }
        ensures units { IfOk result (λ absorbed. absorbed.units.now ≡ units.now) }
        ensures table { IfOk result (λ absorbed. IsAbsorbedTable board.now units.now absorbed.nets) }
    {
        let nets = absorbed_nets(alloc, board, units)?;
        Ok(Absorbed { board, units, nets })
    }

    /// A part of a unit with absorbed nets replaced.
    pub(crate) fn join(&self, alloc: Global, unit: u32, part: Part) -> Result<Cone, NoMemory>
        requires table { IsAbsorbedTable self.now.board.now self.now.units.now self.now.nets }
        requires unit { unit < length (equations_of self.now.board.now).units }
        ensures { IfOk result (IsCone self.now.board.now self.now.units.now (unit_part self.now.board.now unit part)) }
    {
        match joined_with(alloc, self.board, self.nets.items(), unit, part) {
            Ok(part) => Ok(Cone::Narrow(part)),
            Err(JoinError::ConeWide { count }) => Ok(Cone::Wide { count }),
            Err(JoinError::Memory) => Err(NoMemory),
        }
    }

    /// Whether one of these products reads an absorbed net.
    pub(crate) fn is_read_by(&self, products: &[Items<Literal>]) -> bool
        requires { IsAbsorbedTable self.now.board.now self.now.units.now self.now.nets }
        ensures { result ≡ read_absorbed (equations_of self.now.board.now) self.now.units.now products.now }
    {
        are_read(self.nets.items(), products)
    }
}

/// Whether one of these products reads a net of the table.
fn are_read(nets: &[Option<u32>], products: &[Items<Literal>]) -> bool
    ensures { result ≡ read_in_table nets.now products.now }
{
    products.iter().any(|lits| is_read(nets, lits.items()))
}

fn is_read(nets: &[Option<u32>], lits: &[Literal]) -> bool
    ensures { result ≡ list_any (λ x. has_unit nets.now x.source) lits.now }
{
    lits.iter().any(|lit| is_in_table(nets, lit.source))
}

/// Whether what is read is a net of the table.
fn is_in_table(nets: &[Option<u32>], node: Read) -> bool
    ensures { result ≡ has_unit nets.now node }
{
    match node {
        Read::OfNet(net) => unit_at_net(nets, net).is_some(),
        Read::OfRegister(_) => false,
    }
}
