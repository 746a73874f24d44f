ghost use Rattle.std.specs.Prelude.{◌≡◌, ◌++◌, ◌∷◌, [], map, slice_index_or, OnOk, string_bytes, codes};
ghost use Rattle.mig_base.specs.WrittenBoard.{written_line};
ghost use Rattle.answers.specs.Reasons.{reason_words, board_reason, script_reason, plan_reason, node_text, pin_text, name_of_net};

use mig_base::{BoardError, NetLine, Node, PinName, PlanError, ScriptError};
use std::alloc::AllocError;

/// The end of the line of a board that isn't accepted.
pub(crate) fn write_board_error(text: &mut String, error: &BoardError) -> Result<(), AllocError>
    ensures { OnOk result (string_bytes text.new ≡ string_bytes text.old ++ written_line (reason_words (board_reason error.now))) }
{
    match error {
        BoardError::InDriven { net } => {
            text.push_str("InDriven ")?;
            write_node(text, net)?;
            text.push_str("\n")
        }
        BoardError::DerivedClock { chip } => writeln!(text, "DerivedClock {}", chip.text()),
        BoardError::Loop { cycle } => write_loop(text, cycle.items()),
        BoardError::Memory => text.push_str("Memory\n"),
    }
}

/// The word and the nodes of a loop.
fn write_loop(text: &mut String, cycle: &[Node]) -> Result<(), AllocError>
    ensures { OnOk result (string_bytes text.new ≡ string_bytes text.old ++ written_line (codes "Loop" ∷ map node_text cycle.now)) }
{
    text.push_str("Loop")?;
    for node in cycle {
        text.push_str(" ")?;
        write_node(text, node)?;
    }
    text.push_str("\n")
}

/// The name of a node.
pub(crate) fn write_node(text: &mut String, node: &Node) -> Result<(), AllocError>
    ensures { OnOk result (string_bytes text.new ≡ string_bytes text.old ++ node_text node.now) }
{
    match node {
        Node::Gnd => text.push_str("GND"),
        Node::Vcc => text.push_str("VCC"),
        Node::Named(name) => text.push_str(name.text()),
        Node::Private(pin) => write_pin(text, pin),
        Node::Reg(pin) => {
            write_pin(text, pin)?;
            text.push_str(":Q")
        }
    }
}

/// The name of a pin.
pub(crate) fn write_pin(text: &mut String, pin: &PinName) -> Result<(), AllocError>
    ensures { OnOk result (string_bytes text.new ≡ string_bytes text.old ++ pin_text pin.now) }
{
    let name = pin.chip;
    write!(text, "{}.{}", name.text(), pin.pin)
}

/// The end of the line of a refused script text, for a board with these named nets.
pub(crate) fn write_script_error(
    text: &mut String,
    error: ScriptError,
    nets: &[NetLine],
) -> Result<(), AllocError>
    ensures { OnOk result (string_bytes text.new ≡ string_bytes text.old ++ written_line (reason_words (script_reason nets.now error))) }
{
    match error {
        ScriptError::Line { n } => writeln!(text, "Line {n}"),
        ScriptError::PortUnknown { n } => writeln!(text, "PortUnknown {n}"),
        ScriptError::PortTwice { n } => writeln!(text, "PortTwice {n}"),
        ScriptError::PortLeft { net } => writeln!(text, "PortLeft {}", net_text(nets, net)),
        ScriptError::LevelBad { n } => writeln!(text, "LevelBad {n}"),
        ScriptError::StepsOver { n } => writeln!(text, "StepsOver {n}"),
        ScriptError::NoEnd => text.push_str("NoEnd\n"),
        ScriptError::Memory => text.push_str("Memory\n"),
    }
}

/// The end of the line of a refused plan text.
pub(crate) fn write_plan_error(text: &mut String, error: PlanError) -> Result<(), AllocError>
    ensures { OnOk result (string_bytes text.new ≡ string_bytes text.old ++ written_line (reason_words (plan_reason error))) }
{
    match error {
        PlanError::Line { n } => writeln!(text, "Line {n}"),
        PlanError::KindUnknown { n } => writeln!(text, "KindUnknown {n}"),
        PlanError::ChipsOver { n } => writeln!(text, "ChipsOver {n}"),
        PlanError::LinesOver { n } => writeln!(text, "LinesOver {n}"),
        PlanError::NoEnd => text.push_str("NoEnd\n"),
        PlanError::Memory => text.push_str("Memory\n"),
    }
}

/// The name of the net of this number: 0 is GND, 1 is VCC, and there is none behind the named nets.
fn net_text(nets: &[NetLine], number: u32) -> &str
    ensures { result.now ≡ name_of_net nets.now number }
{
    match number {
        0 => "GND",
        1 => "VCC",
        _ => named_text(nets, number as usize - 2),
    }
}

/// The name of a named net.
fn named_text(nets: &[NetLine], place: usize) -> &str
    ensures { result.now ≡ slice_index_or (map (λ l. l.name) nets.now) place [] }
{
    match nets.get(place) {
        Some(line) => line.name.text(),
        None => "",
    }
}
