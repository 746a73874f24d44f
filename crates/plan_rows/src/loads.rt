use crate::faults::Fault;
use board::Board;
use mig_base::{ChipLine, Net, Plan};
use net_text::read_net;
use plan_text::read_plan;
use sample_boards::sample;
use std::alloc::Global;
use std::fs;

/// The longest text of a wiring or a plan.
const MOST_BYTES: usize = 1_048_576;

/// The wiring that a text says.
fn wiring_in(alloc: Global, text: &str) -> Result<Net, Fault> {
    if text.len() > MOST_BYTES {
        return Err(Fault::Board);
    }
    match read_net(alloc, text.as_bytes()) {
        Ok(net) => Ok(net),
        Err(_) => Err(Fault::Board),
    }
}

/// The plan that a text says.
fn plan_in(alloc: Global, text: &str) -> Result<Plan, Fault> {
    if text.len() > MOST_BYTES {
        return Err(Fault::Plan);
    }
    match read_plan(alloc, text.as_bytes()) {
        Ok(plan) => Ok(plan),
        Err(_) => Err(Fault::Plan),
    }
}

/// The fuse texts of the chips of a board.
fn fuse_texts(rt: &HostRuntime, board: &str, chips: &[ChipLine]) -> Result<Vec<String>, Fault> {
    let alloc = rt.alloc();
    let mut texts = Vec::new(alloc);
    for chip in chips {
        let name = chip.name;
        let file = format!(in alloc; "{board}.{}.jed", name.text())?;
        texts.push(fs::read_to_string(rt, file.as_str())?)?;
    }
    Ok(texts)
}

/// The board that these files tell.
pub fn load_board(rt: &HostRuntime, board: &str) -> Result<Board, Fault> {
    let alloc = rt.alloc();
    let file = format!(in alloc; "{board}.net")?;
    let wiring = fs::read_to_string(rt, file.as_str())?;
    let net = wiring_in(alloc, wiring.as_str())?;
    let texts = fuse_texts(rt, board, net.chips.items())?;
    let fuses = texts
        .iter()
        .map(|text| text.as_str())
        .collect::<Vec<&str>>(alloc)?;
    Ok(sample(alloc, wiring.as_str(), fuses.as_slice())?)
}

/// The plan that a file tells.
pub fn load_plan(rt: &HostRuntime, plan: &str) -> Result<Plan, Fault> {
    let alloc = rt.alloc();
    let file = format!(in alloc; "{plan}.plan")?;
    let text = fs::read_to_string(rt, file.as_str())?;
    plan_in(alloc, text.as_str())
}
