use crate::{jed_bytes, read_back};
use mig_base::{Fuses, Items, Kind};
use std::test::Fail;

/// One output of a GAL16V8 in complex mode: the product of pin 2 and NOT pin 3 on pin 19.
const ONE_OUTPUT: &[u8] =
    b"\x02palmig GAL16V8*\nQP20*\nQF2194*\nG0*\nF0*\nL0000 11111111111111111111111111111111*\nL0032 01111011111111111111111111111111*\nL2048 00000000*\nL2056 0000000000000000000000000000000000000000000000000000000000000000*\nL2120 11111111*\nL2128 1111111111111111111111111111111111111111111111111111111111111111*\nL2192 1*\nL2193 1*\nC10D1*\n\x033D47\n";

/// Runs of fuses: how many, and their state.
const RUNS: [(usize, bool); 9] = [
    (32, true),
    (1, false),
    (4, true),
    (1, false),
    (26, true),
    (2056, false),
    (8, true),
    (64, true),
    (2, true),
];

#[test]
fn writes_one_output(rt: HostRuntime) -> Result<(), Fail> {
    read_back();
    let mut bits = Vec::new(rt.alloc());
    for (count, state) in RUNS {
        for _ in 0..count {
            bits.push(state)?;
        }
    }
    assert_eq!(rt; bits.len(), 2194);
    let fuses = Fuses {
        bits: Items::new(bits),
    };
    let text = jed_bytes(rt.alloc(), Kind::Gal16V8, &fuses).map_err(|_| "no memory")?;
    assert_eq!(rt; text.as_slice(), ONE_OUTPUT);
    Ok(())
}
