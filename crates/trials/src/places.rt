ghost use Rattle.std.specs.Prelude.{◌≡◌, ◌↔◌, map, length, IfOk, IsTrue, MatchOption};
ghost use Rattle.mig_base.specs.BoardText.{place_named};
ghost use Rattle.mig_base.specs.Levels.{or_x};
ghost use Rattle.level_laws.specs.SameBehaviour.{port_names as names_of_ports};
ghost use Rattle.mig_base.specs.Boards.{is_port_kind};
ghost use Rattle.mig_base.specs.declared.levels.Level.{Level as LevelOf};
ghost use Rattle.matchings.specs.ByPort.{handed_names as names_of_handed};
ghost use Rattle.trials.specs.Places.{level_by_place, places_among};
ghost use Rattle.trials.specs.Stepping.{AreEven, IsFirstUneven};

use crate::inputs::is_handed;
use mig_base::{Items, Level, Name, Net, NoMemory, Port};
use std::alloc::Global;
use text_lines::is;

/// The names of the Input and Both ports, in board order.
pub(crate) fn handed_names(alloc: Global, net: &Net) -> Result<Vec<Name>, NoMemory>
    ensures { IfOk result (λ names. names.items ≡ names_of_handed net.now) }
{
    let nets = net.nets.items();
    let names = nets
        .iter()
        .filter(|l| is_handed(l.port))
        .map(|l| l.name)
        .collect(alloc)?;
    Ok(names)
}

/// Whether a net of this direction is a port.
fn is_port(port: Port) -> bool
    ensures { result ≡ is_port_kind port }
{
    !matches!(port, Port::Inner)
}

/// The names of the ports, in board order.
pub(crate) fn port_names(alloc: Global, net: &Net) -> Result<Vec<Name>, NoMemory>
    ensures { IfOk result (λ names. names.items ≡ names_of_ports net.now) }
{
    let nets = net.nets.items();
    let names = nets
        .iter()
        .filter(|l| is_port(l.port))
        .map(|l| l.name)
        .collect(alloc)?;
    Ok(names)
}

/// The place of a name among others.
fn place(name: &Name, others: &[Name]) -> Option<usize>
    ensures { result ≡ place_named name.now others.now }
{
    for (k, other) in others.iter().enumerate() {
        if is(name.bytes(), other.bytes()) {
            return Some(k);
        }
    }
    None
}

/// The places of names among others, in order.
pub(crate) fn places(
    alloc: Global,
    names: &[Name],
    others: &[Name],
) -> Result<Vec<Option<usize>>, NoMemory>
    ensures { IfOk result (λ places. places.items ≡ places_among names.now others.now) }
{
    let mut places = Vec::with_capacity(alloc, names.len())?;
    for name in names {
        places.push(place(name, others))?;
    }
    Ok(places)
}

/// The level at a place, where there is one.
pub(crate) fn level_at(levels: &[Level], place: Option<usize>) -> Option<Level>
    ensures { result ≡ level_by_place levels.now place }
{
    match place {
        Some(k) => levels.get(k).copied(),
        None => None,
    }
}

/// The level at a place, and X where there is none.
pub(crate) fn level_or_x(levels: &[Level], place: Option<usize>) -> Level
    ensures { result ≡ or_x (λ (level : LevelOf). level) (level_by_place levels.now place) }
{
    match level_at(levels, place) {
        Some(level) => level,
        None => Level::X,
    }
}

/// Puts the levels at these places into a list, one for each.
pub(crate) fn hand_over(places: &[Option<usize>], from: &[Level], to: &mut Items<Level>)
    requires { length to.old ≡ length places.now }
    ensures { to.new ≡ map (λ place. or_x (λ (level : LevelOf). level) (level_by_place from.now place)) places.now }
{
    for (k, place) in places.iter().enumerate() {
        to.set(k, level_or_x(from, *place));
    }
}

/// Whether two shown levels, if any, are one.
fn is_even(left: Option<Level>, right: Option<Level>) -> bool
    ensures { IsTrue result ↔ (left ≡ right) }
{
    left == right
}

/// The first place at which two lists of shown levels have two levels, by the places in the second list.
pub(crate) fn first_uneven(
    places: &[Option<usize>],
    left: &[Level],
    right: &[Level],
) -> Option<usize>
    ensures { MatchOption result (AreEven places.now left.now right.now) (IsFirstUneven places.now left.now right.now) }
{
    for (i, place) in places.iter().enumerate() {
        if !is_even(level_at(left, Some(i)), level_at(right, *place)) {
            return Some(i);
        }
    }
    None
}
