//! Does the work that `bench/bdd.sh`, `bench/primes.sh` and `bench/join.sh` at the top of the repository time, and prints what each
//! made: nodes of diagrams, or products. A first argument names the bench to run alone. A second one says how often: the graphs of
//! `parity` and `carry`, the calls of `random`, and the functions of `primes` and `covers`.
#![tactic(auto)]

mod calls;
mod diagrams;
mod drawn;
mod joining;
mod parity;
mod ports;
mod units;

use anyhow::Result;
use bdd::NoNode;
use drawn::Wanted;
use mig_base::NoMemory;
use primes::PrimeError;
use std::alloc::Global;
use std::error::Error;
use std::{env, fmt};

/// The most primes that a function may have.
const MOST: u32 = 4096;

/// How often, where no argument says it.
const FEW: u32 = 4;

/// Why a bench made nothing.
#[derive(Clone, Copy, PartialEq, Eq, Debug)]
enum Failure {
    Memory,
    TooManyPrimes,
}

impl fmt::Display for Failure {
    fn fmt<W: fmt::Write>(&self, f: &mut fmt::Formatter<W>) -> fmt::Result {
        match self {
            Failure::Memory => write!(f, "no memory"),
            Failure::TooManyPrimes => write!(f, "too many primes"),
        }
    }
}

impl Error for Failure {}

impl From<NoNode> for Failure {
    fn from(_: NoNode) -> Failure {
        Failure::Memory
    }
}

impl From<NoMemory> for Failure {
    fn from(_: NoMemory) -> Failure {
        Failure::Memory
    }
}

impl From<PrimeError> for Failure {
    fn from(error: PrimeError) -> Failure {
        match error {
            PrimeError::Over { .. } => Failure::TooManyPrimes,
            PrimeError::Memory => Failure::Memory,
        }
    }
}

#[derive(Clone, Copy)]
enum Bench {
    Parity,
    Carry,
    Random,
    ParityPrimes,
    Primes,
    Covers,
    JoinedPure,
    JoinedImpure,
}

impl Bench {
    const ALL: [Bench; 8] = [
        Bench::Parity,
        Bench::Carry,
        Bench::Random,
        Bench::ParityPrimes,
        Bench::Primes,
        Bench::Covers,
        Bench::JoinedPure,
        Bench::JoinedImpure,
    ];

    fn name(self) -> &'static str {
        match self {
            Bench::Parity => "parity",
            Bench::Carry => "carry",
            Bench::Random => "random",
            Bench::ParityPrimes => "parity_primes",
            Bench::Primes => "primes",
            Bench::Covers => "covers",
            Bench::JoinedPure => "joined_pure",
            Bench::JoinedImpure => "joined_impure",
        }
    }

    /// Does the work so many times, and counts the nodes or the products that were made.
    fn made(self, alloc: Global, times: u32) -> Result<u64, Failure> {
        match self {
            Bench::Parity => Ok(diagrams::parity_nodes(alloc, times)?),
            Bench::Carry => Ok(diagrams::carry_nodes(alloc, times)?),
            Bench::Random => Ok(calls::nodes(alloc, times)?),
            Bench::ParityPrimes => Ok(parity::count_primes(alloc, MOST)?),
            Bench::Primes => Ok(drawn::count_products(alloc, times, Wanted::Primes, MOST)?),
            Bench::Covers => Ok(drawn::count_products(alloc, times, Wanted::Cover, MOST)?),
            Bench::JoinedPure => Ok(joining::nodes(alloc, "in")?),
            Bench::JoinedImpure => Ok(joining::nodes(alloc, "io")?),
        }
    }
}

fn main(rt: HostRuntime) -> Result<()> {
    let mut arguments = env::args(&rt)?.skip(1);
    let chosen = arguments.next();
    let times = match arguments.next() {
        Some(count) => count.parse()?,
        None => FEW,
    };
    for bench in Bench::ALL {
        let is_chosen = match &chosen {
            Some(name) => name.as_str() == bench.name(),
            None => true,
        };
        if is_chosen {
            let made = bench.made(rt.alloc(), times)?;
            println!(rt; "{} {made}", bench.name())?;
        }
    }
    Ok(())
}
