ghost use Rattle.std.specs.Prelude.{ℕ, ◌≡◌, ◌≤◌, ◌++◌, ◌∷◌, [], map, replicate, length, IfOk, OnOk};
ghost use Rattle.mig_base.specs.Boards.{kind_at as kind_in_place, is_handed as handed, kinds_from, is_port as port_line, places_from};

use mig_base::{NetKind, NetLine, NoMemory, Port, Pull};
use std::alloc::Global;

/// A net's kind, and what pulls it.
pub(crate) type KindPull = (NetKind, Pull);

/// The kind of a net of this direction, where the next handed level has this place.
fn kind_at(place: u32, port: Port) -> NetKind
    ensures { result ≡ kind_in_place place port }
{
    match port {
        Port::Inner | Port::Output => NetKind::Inner,
        Port::Input => NetKind::Handed(place),
        Port::Both => NetKind::Shared(place),
    }
}

/// Whether a net of this direction is handed a level.
fn is_handed(port: Port) -> bool
    ensures { result ≡ handed port }
{
    matches!(port, Port::Input | Port::Both)
}

/// Adds the kinds of named nets.
fn push_named(lines: &[NetLine], kinds: &mut Vec<KindPull>) -> Result<(), NoMemory>
    requires { length lines.now ≤ 1024 }
    ensures { OnOk result (kinds.new.items ≡ kinds.old.items ++ kinds_from 0 lines.now) }
{
    let mut place = 0;
    for line in lines {
        kinds.push((kind_at(place, line.port), line.pull))?;
        if is_handed(line.port) {
            place += 1;
        }
    }
    Ok(())
}

/// The kinds of GND, VCC, these named nets and so many private ones.
pub(crate) fn kinds_of(
    alloc: Global,
    lines: &[NetLine],
    privates: usize,
) -> Result<Vec<KindPull>, NoMemory>
    requires { length lines.now ≤ 1024 }
    ensures { IfOk result (λ kinds. kinds.items ≡ (NetKind.Ground, Pull.Free) ∷ (NetKind.Power, Pull.Free) ∷ kinds_from 0 lines.now ++ replicate privates (NetKind.Inner, Pull.Free)) }
{
    let mut kinds = Vec::new(alloc);
    kinds.push((NetKind::Ground, Pull::Free))?;
    kinds.push((NetKind::Power, Pull::Free))?;
    push_named(lines, &mut kinds)?;
    for _ in 0..privates {
        kinds.push((NetKind::Inner, Pull::Free))?;
    }
    Ok(kinds)
}

/// Whether a named net is a port.
fn is_port(line: &NetLine) -> bool
    ensures { result ≡ port_line line.now }
{
    !matches!(line.port, Port::Inner)
}

/// The ports among these named nets, by their nets.
pub(crate) fn ports_of(alloc: Global, lines: &[NetLine]) -> Result<Vec<u32>, NoMemory>
    requires { length lines.now ≤ 1024 }
    ensures { IfOk result (λ ports. ports.items ≡ places_from port_line 2 lines.now) }
{
    let mut ports = Vec::new(alloc);
    for (place, line) in lines.iter().enumerate() {
        if is_port(line) {
            ports.push(2 + place as u32)?;
        }
    }
    Ok(ports)
}
