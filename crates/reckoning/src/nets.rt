//! The triple of a net, from those of its drivers, its handed level and its pull.
ghost use Rattle.std.specs.Prelude.{◌≡◌, List, IfOk, map, slice_get};
ghost use Rattle.std.specs.List.{flat_map};
ghost use Rattle.bdd.specs.Tree.{Point};
ghost use Rattle.bdd.specs.Diagram.{IsCanonical, Keeps};
ghost use Rattle.mig_base.specs.declared.levels.Level.TheVariants.{Z as Floating};
ghost use Rattle.mig_base.specs.Levels.{resolve2 as resolve_of};
ghost use Rattle.mig_base.specs.Reads.{driver_reads, wire_reads};
ghost use Rattle.settle.specs.Rules.{wired as all_wired, drive_of as driven_by, net_level as level_of_net, pulled_from};
ghost use Rattle.reckoning.specs.Triples.{IsTriple, AreTriples, Allows};
ghost use Rattle.reckoning.specs.Tables.{IsTable, IsTripleOf, IsWiredOf, IsPulled, IsSharedOf, IsNetOf};

use crate::logic::{drive, three_at, unknown, wired};
use crate::triples::{Table, Three};
use bdd::{Graph, NoNode};
use mig_base::{Circuit, NetKind, Pull, Wire};

/// The drive of a unit by its number, and X where there is none.
fn drive_of(graph: &mut Graph, circuit: &Circuit, table: &Table, unit: u32) -> Result<Three, NoNode>
    requires { IsTable graph.old table.now }
    ensures keeps { Keeps graph.old graph.new }
    ensures canonical { IsCanonical graph.new }
    ensures triple { IfOk result (IsTripleOf graph.old graph.new table.now (driver_reads (slice_get circuit.now.units unit)) (λ l. driven_by circuit.now l unit)) }
{
    let units = circuit.units.items();
    let unit = unit as usize;
    if unit < units.len() {
        drive(graph, table, &units[unit])
    } else {
        Ok(unknown(graph))
    }
}

/// What nothing drives.
fn floating(graph: &Graph) -> Three
    ensures triple { IsTriple graph.now result }
    ensures allows { (p : Point) → Allows graph.now result p Floating }
    ensures canonical { IsCanonical graph.now }
{
    let always = graph.constant(true);
    Three {
        one: always,
        zero: always,
        float: always,
    }
}

/// What these units make of a net on which something stands already.
fn wired_with(
    graph: &mut Graph,
    circuit: &Circuit,
    table: &Table,
    start: Three,
    drivers: &[u32],
) -> Result<Three, NoNode>
    requires table { IsTable graph.old table.now }
    requires start { IsTriple graph.old start }
    ensures keeps { Keeps graph.old graph.new }
    ensures canonical { IsCanonical graph.new }
    ensures wired { IfOk result (IsWiredOf graph.old graph.new table.now start (flat_map (λ u. driver_reads (slice_get circuit.now.units u)) drivers.now) (λ l x. resolve_of x (all_wired (map (driven_by circuit.now l) drivers.now)))) }
{
    let _count = graph.vars();
    let mut so_far = start;
    for unit in drivers {
        let drive = drive_of(graph, circuit, table, *unit)?;
        so_far = wired(graph, so_far, drive)?;
    }
    Ok(so_far)
}

/// What a pull makes of a net.
fn pulled(graph: &mut Graph, pull: Pull, wired: Three) -> Result<Three, NoNode>
    requires { IsTriple graph.old wired }
    ensures keeps { Keeps graph.old graph.new }
    ensures canonical { IsCanonical graph.new }
    ensures pulled { IfOk result (IsPulled graph.old graph.new pull wired) }
{
    let driven = graph.not(wired.float)?;
    let one = graph.and(wired.one, driven)?;
    let zero = graph.and(wired.zero, driven)?;
    let never = graph.constant(false);
    match pull {
        Pull::Free => Ok(Three {
            one,
            zero,
            float: wired.float,
        }),
        Pull::Up => Ok(Three {
            one: wired.one,
            zero,
            float: never,
        }),
        Pull::Down => Ok(Three {
            one,
            zero: wired.zero,
            float: never,
        }),
    }
}

/// The triple of a net that is handed a level besides its drivers.
fn shared_net(
    graph: &mut Graph,
    circuit: &Circuit,
    handed: Three,
    table: &Table,
    wire: &Wire,
) -> Result<Three, NoNode>
    requires table { IsTable graph.old table.now }
    requires handed { IsTriple graph.old handed }
    ensures keeps { Keeps graph.old graph.new }
    ensures canonical { IsCanonical graph.new }
    ensures net { IfOk result (IsSharedOf graph.old graph.new table.now handed (wire_reads circuit.now wire.now) (λ l x. pulled_from wire.now.pull (resolve_of x (all_wired (map (driven_by circuit.now l) wire.now.drivers))))) }
{
    let nothing = floating(graph);
    let start = wired(graph, nothing, handed)?;
    let all = wired_with(graph, circuit, table, start, wire.drivers.items())?;
    pulled(graph, wire.pull, all)
}

/// The triple of a net that only its drivers and its pull make.
fn inner_net(
    graph: &mut Graph,
    circuit: &Circuit,
    table: &Table,
    wire: &Wire,
) -> Result<Three, NoNode>
    requires table { IsTable graph.old table.now }
    ensures keeps { Keeps graph.old graph.new }
    ensures canonical { IsCanonical graph.new }
    ensures net { IfOk result (IsTripleOf graph.old graph.new table.now (wire_reads circuit.now wire.now) (λ l. pulled_from wire.now.pull (all_wired (map (driven_by circuit.now l) wire.now.drivers)))) }
{
    let nothing = floating(graph);
    let all = wired_with(graph, circuit, table, nothing, wire.drivers.items())?;
    pulled(graph, wire.pull, all)
}

/// The triple of a net.
pub(crate) fn net(
    graph: &mut Graph,
    circuit: &Circuit,
    handed: &[Three],
    table: &Table,
    wire: &Wire,
) -> Result<Three, NoNode>
    requires table { IsTable graph.old table.now }
    requires handed { AreTriples graph.old handed.now }
    ensures keeps { Keeps graph.old graph.new }
    ensures canonical { IsCanonical graph.new }
    ensures net { IfOk result (IsNetOf graph.old graph.new table.now handed.now (wire_reads circuit.now wire.now) (λ inputs l. level_of_net circuit.now inputs l wire.now)) }
{
    let drivers = wire.drivers.items();
    let always = graph.constant(true);
    let never = graph.constant(false);
    match wire.kind {
        NetKind::Ground => Ok(Three {
            one: never,
            zero: always,
            float: never,
        }),
        NetKind::Power => Ok(Three {
            one: always,
            zero: never,
            float: never,
        }),
        NetKind::Handed(place) => Ok(three_at(graph, handed, place)),
        NetKind::Shared(place) => shared_net(
            graph,
            circuit,
            three_at(graph, handed, place),
            table,
            wire,
        ),
        NetKind::Inner => inner_net(graph, circuit, table, wire),
    }
}
