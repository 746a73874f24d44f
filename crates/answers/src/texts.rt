ghost use Rattle.std.specs.Prelude.{◌≡◌, ◌++◌, ◌∷◌, [], OnOk, IfOk, string_bytes};
ghost use Rattle.mig_base.specs.WrittenBoard.{written_line};
ghost use Rattle.mig_base.specs.WrittenFuses.{four_hex};
ghost use Rattle.answers.specs.Reasons.{reason_words, jed_reason, chip_reason, net_reason};
ghost use Rattle.answers.specs.Reports.{answer_report, refusal_words};

use crate::breaches::write_breached;
use crate::reasons::{write_board_error, write_plan_error, write_script_error};
use crate::{Exit, Refusal};
use mig_base::{ChipError, JedError, NetError, NetLine};
use std::alloc::{AllocError, Global};

/// What a call that can't be read is told.
const USAGE: &str =
    "usage: palmig migrate OLD NEW [PLAN] | compare A B | sim BOARD SCRIPT | list FILE KIND | check BOARD | make N NEW\n";

/// The report of an answer other than Done, where the board that was read has these named nets. Nothing is told of OutFault
/// and Memory.
pub fn report(alloc: Global, exit: &Exit, nets: &[NetLine]) -> Result<Vec<u8>, AllocError>
    ensures { IfOk result (λ v. v.items ≡ answer_report nets.now exit.now) }
{
    let mut text = String::new(alloc);
    write_answer(&mut text, exit, nets)?;
    Ok(text.into_bytes())
}

fn write_answer(text: &mut String, exit: &Exit, nets: &[NetLine]) -> Result<(), AllocError>
    ensures { OnOk result (string_bytes text.new ≡ string_bytes text.old ++ answer_report nets.now exit.now) }
{
    match exit {
        Exit::Usage => text.push_str(USAGE),
        Exit::Refused(refusal) => write_refusal(text, refusal, nets),
        Exit::Breached(breach) => write_breached(text, None, breach),
        Exit::Missing(file) => writeln!(text, "missing {}", file.text()),
        Exit::ReadFault(file) => writeln!(text, "readfault {}", file.text()),
        Exit::SaveFault(file) => writeln!(text, "savefault {}", file.text()),
        Exit::Done | Exit::OutFault | Exit::Memory => Ok(()),
    }
}

/// The line of a refusal.
fn write_refusal(text: &mut String, refusal: &Refusal, nets: &[NetLine]) -> Result<(), AllocError>
    ensures { OnOk result (string_bytes text.new ≡ string_bytes text.old ++ written_line (refusal_words nets.now refusal.now)) }
{
    match refusal {
        Refusal::Clash => text.push_str("refused clash\n"),
        Refusal::Later(file) => writeln!(text, "refused later {}", file.text()),
        Refusal::TooLong(file) => writeln!(text, "refused toolong {}", file.text()),
        Refusal::Jed(file, error) => {
            write!(text, "refused jed {} ", file.text())?;
            write_jed_error(text, *error)
        }
        Refusal::Chip(file, error) => {
            write!(text, "refused chip {} ", file.text())?;
            write_chip_error(text, *error)
        }
        Refusal::Net(file, error) => {
            write!(text, "refused net {} ", file.text())?;
            write_net_error(text, *error)
        }
        Refusal::Board(file, error) => {
            write!(text, "refused board {} ", file.text())?;
            write_board_error(text, error)
        }
        Refusal::Script(file, error) => {
            write!(text, "refused script {} ", file.text())?;
            write_script_error(text, *error, nets)
        }
        Refusal::PlanText(file, error) => {
            write!(text, "refused plan {} ", file.text())?;
            write_plan_error(text, *error)
        }
    }
}

/// The end of the line of a refused fuse text.
fn write_jed_error(text: &mut String, error: JedError) -> Result<(), AllocError>
    ensures { OnOk result (string_bytes text.new ≡ string_bytes text.old ++ written_line (reason_words (jed_reason error))) }
{
    match error {
        JedError::NoStx => text.push_str("NoStx\n"),
        JedError::NoEtx => text.push_str("NoEtx\n"),
        JedError::BadTail => text.push_str("BadTail\n"),
        JedError::BadSum { said, found } => write_sums(text, "BadSum", said, found),
        JedError::BadField { at } => writeln!(text, "BadField {at}"),
        JedError::FieldK { at } => writeln!(text, "FieldK {at}"),
        JedError::CountTwice { at } => writeln!(text, "CountTwice {at}"),
        JedError::CountOver { found } => writeln!(text, "CountOver {found}"),
        JedError::DefaultTwice { at } => writeln!(text, "DefaultTwice {at}"),
        JedError::NoCount => text.push_str("NoCount\n"),
        JedError::Address { at } => writeln!(text, "Address {at}"),
        JedError::FuseTwice { fuse } => writeln!(text, "FuseTwice {fuse}"),
        JedError::FuseUnset { fuse } => writeln!(text, "FuseUnset {fuse}"),
        JedError::BadFuseSum { said, found } => write_sums(text, "BadFuseSum", said, found),
        JedError::Memory => text.push_str("Memory\n"),
    }
}

/// The variant of a wrong sum, the said and the found sum.
fn write_sums(text: &mut String, variant: &str, said: u16, found: u16) -> Result<(), AllocError>
    ensures { OnOk result (string_bytes text.new ≡ string_bytes text.old ++ written_line (variant.now ∷ four_hex said ∷ four_hex found ∷ [])) }
{
    text.push_str(variant)?;
    write_sum(text, said)?;
    write_sum(text, found)?;
    text.push_str("\n")
}

/// A space and the four hexadecimal digits of a sum.
fn write_sum(text: &mut String, sum: u16) -> Result<(), AllocError>
    ensures { OnOk result (string_bytes text.new ≡ string_bytes text.old ++ 32 ∷ four_hex sum) }
{
    let (high, low) = (sum / 256, sum % 256);
    write!(text, " {high:02X}{low:02X}")
}

/// The end of the line of refused fuses.
fn write_chip_error(text: &mut String, error: ChipError) -> Result<(), AllocError>
    ensures { OnOk result (string_bytes text.new ≡ string_bytes text.old ++ written_line (reason_words (chip_reason error))) }
{
    match error {
        ChipError::Count { found } => writeln!(text, "Count {found}"),
        ChipError::ModeBits => text.push_str("ModeBits\n"),
        ChipError::Ac1InComplex { pin } => writeln!(text, "Ac1InComplex {pin}"),
        ChipError::Memory => text.push_str("Memory\n"),
    }
}

/// The end of the line of a refused board text.
fn write_net_error(text: &mut String, error: NetError) -> Result<(), AllocError>
    ensures { OnOk result (string_bytes text.new ≡ string_bytes text.old ++ written_line (reason_words (net_reason error))) }
{
    match error {
        NetError::Line { n } => writeln!(text, "Line {n}"),
        NetError::NetsOver { n } => writeln!(text, "NetsOver {n}"),
        NetError::ChipsOver { n } => writeln!(text, "ChipsOver {n}"),
        NetError::NameTwice { n } => writeln!(text, "NameTwice {n}"),
        NetError::KindUnknown { n } => writeln!(text, "KindUnknown {n}"),
        NetError::NetUnknown { n } => writeln!(text, "NetUnknown {n}"),
        NetError::ChipUnknown { n } => writeln!(text, "ChipUnknown {n}"),
        NetError::PinUnknown { n } => writeln!(text, "PinUnknown {n}"),
        NetError::PinTwice { n } => writeln!(text, "PinTwice {n}"),
        NetError::PowerPin { n } => writeln!(text, "PowerPin {n}"),
        NetError::PullTwice { n } => writeln!(text, "PullTwice {n}"),
        NetError::PullNet { n } => writeln!(text, "PullNet {n}"),
        NetError::NoEnd => text.push_str("NoEnd\n"),
        NetError::Memory => text.push_str("Memory\n"),
    }
}
