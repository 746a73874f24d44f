ghost use Rattle.std.specs.Prelude.{◌≡◌, [], map};
ghost use Rattle.std.specs.List.{list_any};
ghost use Rattle.std.specs.Str.{bytes_eq};
ghost use Rattle.mig_base.specs.BoardText.{place_named};
ghost use Rattle.mig_base.specs.First.{first_refusal};
ghost use Rattle.sim_run.specs.ScriptText as spec;
ghost use Rattle.sim_run.specs.Statements.{Names, Tables};

use crate::forms::names_on;
use crate::handed::HandedPort;
use crate::keeping::keep;
use mig_base::{Port, ScriptError};
use std::alloc::Global;
use text_lines::{Line, is, words};

/// Where the character of a port stands on a `step` line, and the direction of the port.
#[derive(Clone, Copy)]
pub(crate) struct Slot {
    pub port: Port,
    pub place: usize,
}

/// The slots of the ports in board order, by their names on a line.
pub(crate) fn slots_on(
    alloc: Global,
    ports: &[HandedPort],
    line: Line,
) -> Result<Vec<Slot>, ScriptError>
    ensures { Names (λ slots. slots.items) ports.now line.entry result }
{
    let Ok(words) = words(alloc, line.text) else {
        return Err(ScriptError::Memory);
    };
    let Some(names) = names_on(words.as_slice()) else {
        return Err(ScriptError::Line { n: line.n });
    };
    if let Some(error) = names_refusal(ports, line.n, names) {
        return Err(error);
    }
    slots(alloc, ports, names)
}

/// The first name that is no port or stands twice.
fn names_refusal(ports: &[HandedPort], n: u32, names: &[&[u8]]) -> Option<ScriptError>
    ensures { result ≡ first_refusal (spec.name_refusal ports.now n) [] (map (λ w. w.now) names.now) }
{
    for (i, name) in names.iter().enumerate() {
        if let Some(error) = name_refusal(ports, n, &names[..i], name) {
            return Some(error);
        }
    }
    None
}

/// What is wrong with a name behind these.
#[tactic(auto, using(text_lines::proofs::Judging::any_now))]
fn name_refusal(ports: &[HandedPort], n: u32, before: &[&[u8]], name: &[u8]) -> Option<ScriptError>
    ensures { result ≡ spec.name_refusal ports.now n (map (λ w. w.now) before.now) name.now }
{
    if !is_port(ports, name) {
        return Some(ScriptError::PortUnknown { n });
    }
    is_among(before, name).then_some(ScriptError::PortTwice { n })
}

/// Whether a port has this name.
fn is_port(ports: &[HandedPort], name: &[u8]) -> bool
    ensures { result ≡ list_any (λ p. bytes_eq name.now p.name) ports.now }
{
    ports.iter().any(|p| is(name, p.name.bytes()))
}

/// Whether the name is one of these.
fn is_among(names: &[&[u8]], name: &[u8]) -> bool
    ensures { result ≡ list_any (λ w. bytes_eq name.now w.now) names.now }
{
    names.iter().any(|other| is(name, other))
}

/// The slots of the ports, or the first port without a name.
fn slots(alloc: Global, ports: &[HandedPort], names: &[&[u8]]) -> Result<Vec<Slot>, ScriptError>
    ensures { Tables (λ slots. slots.items) ports.now (map (λ w. w.now) names.now) result }
{
    let mut slots = Vec::new(alloc);
    for port in ports {
        let Some(place) = place(names, port.name.bytes()) else {
            return Err(ScriptError::PortLeft { net: port.net });
        };
        let slot = Slot {
            port: port.port,
            place,
        };
        if keep(&mut slots, Some(slot)).is_err() {
            return Err(ScriptError::Memory);
        }
    }
    Ok(slots)
}

/// The place of a name among these.
fn place(names: &[&[u8]], name: &[u8]) -> Option<usize>
    ensures { result ≡ place_named name.now (map (λ w. w.now) names.now) }
{
    for (k, other) in names.iter().enumerate() {
        if is(name, other) {
            return Some(k);
        }
    }
    None
}
