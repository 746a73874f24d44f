ghost use Rattle.std.specs.Prelude.{◌≡◌, ◌++◌, ◌∷◌, [], map, if◌then◌else◌, OnOk, IfOk, string_bytes, codes};
ghost use Rattle.std.specs.Fmt.{decimal};
ghost use Rattle.mig_base.specs.Boards.{is_port as is_port_line, is_port_kind};
ghost use Rattle.mig_base.specs.WrittenBoard.{written_line};
ghost use Rattle.mig_base.specs.Levels.{level_code};
ghost use Rattle.answers.specs.Reports.{accepted_line, ports_line, show_line};

use mig_base::{Level, NetLine, Port};
use std::alloc::{AllocError, Global};
use text_lines::write_line;

/// What an accepted board counts: its chips, named nets, units and registers, and its rank.
#[derive(Clone, Copy)]
pub struct Counted {
    pub chips: usize,
    pub nets: usize,
    pub units: usize,
    pub registers: usize,
    pub rank: u32,
}

/// The report of an accepted board.
pub fn accepted(alloc: Global, counted: Counted) -> Result<Vec<u8>, AllocError>
    ensures { IfOk result (λ v. v.items ≡ accepted_line counted.chips counted.nets counted.units counted.registers counted.rank) }
{
    let mut text = String::new(alloc);
    text.push_str("accepted")?;
    write_count(&mut text, "chips", counted.chips)?;
    write_count(&mut text, "nets", counted.nets)?;
    write_count(&mut text, "units", counted.units)?;
    write_count(&mut text, "registers", counted.registers)?;
    write_count(&mut text, "rank", counted.rank as usize)?;
    text.push_str("\n")?;
    Ok(text.into_bytes())
}

/// A space, what is counted, a space and the number.
fn write_count(text: &mut String, what: &str, count: usize) -> Result<(), AllocError>
    ensures { OnOk result (string_bytes text.new ≡ string_bytes text.old ++ (32 ∷ (what.now ++ 32 ∷ decimal count))) }
{
    write!(text, " {what} {count}")
}

/// The first line of the report of a run: the names of all ports among the named nets, in board order.
pub fn write_ports(text: &mut String, nets: &[NetLine]) -> Result<(), AllocError>
    ensures { OnOk result (string_bytes text.new ≡ string_bytes text.old ++ ports_line nets.now) }
{
    text.push_str("ports")?;
    for line in nets {
        write_port(text, line)?;
    }
    text.push_str("\n")
}

/// A space and the name of a port.
fn write_port(text: &mut String, line: &NetLine) -> Result<(), AllocError>
    ensures { OnOk result (string_bytes text.new ≡ string_bytes text.old ++ (if is_port_line line.now then 32 ∷ line.now.name else [])) }
{
    if is_port(line.port) {
        text.push_str(" ")?;
        text.push_str(line.name.text())?;
    }
    Ok(())
}

/// Whether a net of this direction is a port.
fn is_port(port: Port) -> bool
    ensures { result ≡ is_port_kind port }
{
    match port {
        Port::Inner => false,
        Port::Input | Port::Output | Port::Both => true,
    }
}

/// The line of what a board shows after a step: the level of every port, in board order.
pub fn write_show(text: &mut String, levels: &[Level]) -> Result<(), AllocError>
    ensures { OnOk result (string_bytes text.new ≡ string_bytes text.old ++ show_line levels.now) }
{
    match levels {
        [] => write_line(text, &["show"]),
        _ => write_levels(text, levels),
    }
}

/// The word and the levels.
fn write_levels(text: &mut String, levels: &[Level]) -> Result<(), AllocError>
    ensures { OnOk result (string_bytes text.new ≡ string_bytes text.old ++ written_line (codes "show" ∷ map level_code levels.now ∷ [])) }
{
    text.push_str("show ")?;
    for level in levels {
        text.push_str(level_text(*level))?;
    }
    text.push_str("\n")
}

fn level_text(level: Level) -> &'static str
    ensures { result.now ≡ level_code level ∷ [] }
{
    match level {
        Level::Zero => "0",
        Level::One => "1",
        Level::Z => "Z",
        Level::X => "X",
    }
}
