ghost use Rattle.std.specs.Prelude.{◌≡◌, not};
ghost use Rattle.std.specs.List.{list_all};
ghost use Rattle.mig_base.specs.DeviceTables.{is_pal16 as is_pal16_kind};
ghost use Rattle.taken_boards.specs.TakenBoards.{is_taken_wiring as taken_wiring, are_taken_ports as taken_ports, is_free};
ghost use Rattle.mig_base.specs.BoardText.{is_both};

use mig_base::{ChipLine, Kind, Net, NetLine, Port, Pull};

/// Whether all chips of a wiring are of the PAL16 kinds, and no net has a pull.
pub fn is_taken_wiring(net: &Net) -> bool
    ensures { result ≡ taken_wiring net.now }
{
    are_pal16(net.chips.items()) && are_unpulled(net.nets.items())
}

fn is_pal16(line: &ChipLine) -> bool
    ensures { result ≡ is_pal16_kind line.now.kind }
{
    matches!(
        line.kind,
        Kind::Pal16L8 | Kind::Pal16R4 | Kind::Pal16R6 | Kind::Pal16R8
    )
}

fn are_pal16(lines: &[ChipLine]) -> bool
    ensures { result ≡ list_all (λ c. is_pal16_kind c.kind) lines.now }
{
    lines.iter().all(is_pal16)
}

fn is_unpulled(line: &NetLine) -> bool
    ensures { result ≡ is_free line.now.pull }
{
    line.pull == Pull::Free
}

fn are_unpulled(lines: &[NetLine]) -> bool
    ensures { result ≡ list_all (λ l. is_free l.pull) lines.now }
{
    lines.iter().all(is_unpulled)
}

fn is_one_way(line: &NetLine) -> bool
    ensures { result ≡ not (is_both line.now.port) }
{
    line.port != Port::Both
}

/// Whether no named net is a port both ways.
pub(crate) fn are_taken_ports(net: &Net) -> bool
    ensures { result ≡ taken_ports net.now }
{
    net.nets.items().iter().all(is_one_way)
}
