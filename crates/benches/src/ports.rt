//! A board of eight PAL16L8 whose last unit gives the parity of 32 ports.
use board::Board;
use mig_base::{Fuses, Items, NoMemory};
use sample_boards::sample_of;
use std::alloc::Global;

/// The ports of the parity.
const PORTS: usize = 32;

/// The chips, of which each but the last has gates that tell whether two pins differ.
const CHIPS: usize = 8;

/// The two input pins of the gates of a chip. The first gate drives pin 19, the next one pin 18, and so on.
const INPUTS: [(usize, usize); 5] = [(1, 2), (3, 4), (5, 6), (7, 8), (9, 11)];

/// The places of these pins' column pairs in a row.
const COLUMNS: [(usize, usize); 5] = [(1, 0), (2, 4), (6, 8), (10, 12), (14, 15)];

/// What an input of a gate is on: the first 16 gates read ports, and each later one two gates before it.
fn write_source(text: &mut String, gate: usize, second: bool) -> Result<(), NoMemory> {
    let input = if second { 1 } else { 0 };
    let place = 2 * (gate % (PORTS / 2)) + input;
    if gate < PORTS / 2 {
        writeln!(text, "I{place}")?;
    } else {
        writeln!(text, "X{place}")?;
    }
    Ok(())
}

/// The pins of the gates that tell whether two pins differ.
fn write_gates(text: &mut String) -> Result<(), NoMemory> {
    for gate in 0..PORTS - 1 {
        let chip = gate / INPUTS.len();
        let slot = gate % INPUTS.len();
        let (first, second) = INPUTS[slot];
        write!(text, "pin U{chip} {first} ")?;
        write_source(text, gate, false)?;
        write!(text, "pin U{chip} {second} ")?;
        write_source(text, gate, true)?;
        let pin = 19 - slot;
        writeln!(text, "pin U{chip} {pin} X{gate}")?;
    }
    Ok(())
}

/// The lines of the nets.
fn write_nets(text: &mut String, port: &str) -> Result<(), NoMemory> {
    for number in 0..PORTS {
        writeln!(text, "net I{number} {port}")?;
        writeln!(text, "net X{number}")?;
    }
    Ok(())
}

/// The wiring. The last chip inverts the parity once and again.
fn wiring_text(alloc: Global, port: &str) -> Result<String, NoMemory> {
    let mut text = String::from_str(alloc, "board 1\nnet Y out\n")?;
    write_nets(&mut text, port)?;
    for chip in 0..CHIPS {
        writeln!(text, "chip U{chip} PAL16L8")?;
    }
    write_gates(&mut text)?;
    text.push_str("pin U7 2 X30\npin U7 18 X31\npin U7 1 X31\npin U7 19 Y\nend\n")?;
    Ok(text)
}

/// Whether a fuse of a gate is blown: the first row enables the pin, and two more are the products.
fn is_blown(columns: (usize, usize), row: usize, column: usize) -> bool {
    let (pair, sign) = (column / 2, column % 2);
    match row {
        0 => true,
        1 | 2 => sign + 1 != row || (pair != columns.0 && pair != columns.1),
        _ => false,
    }
}

/// Whether a fuse of a chip is blown.
fn is_blown_in(last: bool, row: usize, column: usize) -> bool {
    let slot = row / 8;
    match (last, slot) {
        (false, 0..=4) => is_blown(COLUMNS[slot], row % 8, column),
        (true, 0) => row % 8 < 2 && is_blown((1, 1), row % 8, column),
        (true, 1) => row % 8 < 2 && is_blown((0, 0), row % 8, column),
        _ => false,
    }
}

fn fuses(alloc: Global, last: bool) -> Result<Fuses, NoMemory> {
    let mut bits = Vec::with_capacity(alloc, 2048)?;
    for fuse in 0..2048 {
        bits.push(is_blown_in(last, fuse / 32, fuse % 32))?;
    }
    Ok(Fuses {
        bits: Items::new(bits),
    })
}

/// The board over ports of this kind.
pub fn board(alloc: Global, port: &str) -> Result<Board, NoMemory> {
    let net = wiring_text(alloc, port)?;
    let mut chips = Vec::with_capacity(alloc, CHIPS)?;
    for chip in 0..CHIPS {
        chips.push(fuses(alloc, chip + 1 == CHIPS)?)?;
    }
    match sample_of(alloc, net.as_str(), chips.as_slice()) {
        Ok(board) => Ok(board),
        Err(_) => Err(NoMemory),
    }
}
