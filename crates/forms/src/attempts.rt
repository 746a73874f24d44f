//! The tries of a form of Logic, one behind the other.
ghost use Rattle.std.specs.Prelude.{◌≡◌, ℕ, List, ◌++◌, IfOk};
ghost use Rattle.board.specs.Joined.{Joined};
ghost use Rattle.plans.specs.Forms.{Room as Offer, Try};
ghost use Rattle.forms.specs.Attempts.{IsAttempt, IsFailure, IsOffering, both_failures, behind_failure};

use crate::old::Products;
use mig_base::NoMemory;

/// Why no form of some tries fits: one of them has too many primes, or the least of their terms are too many.
#[derive(Clone, Copy)]
pub(crate) enum Failure {
    PrimesOver,
    TermsOver { needed: u32 },
}

/// What some tries come to: the first that fits, or why none does.
#[derive(Drop)]
pub(crate) enum Attempt {
    Fits { low: bool, terms: Products },
    Fails(Failure),
}

/// What one try comes to: its products, or none where it has too many primes. Fails for want of memory alone.
pub(crate) fn tried(low: bool, terms: Option<Products>, most: u32) -> Result<Attempt, NoMemory>
    ensures { IfOk result (IsOffering low terms most) }
{
    let Some(terms) = terms else {
        return Ok(Attempt::Fails(Failure::PrimesOver));
    };
    let count = terms.items().len();
    if count <= most as usize {
        return Ok(Attempt::Fits { low, terms });
    }
    if count > u32::MAX as usize {
        return Err(NoMemory);
    }
    Ok(Attempt::Fails(Failure::TermsOver {
        needed: count as u32,
    }))
}

/// Why no form of two lists of tries fits.
pub(crate) fn both(first: Failure, second: Failure) -> Failure
    ensures { result ≡ both_failures first second }
{
    match (first, second) {
        (Failure::TermsOver { needed: n }, Failure::TermsOver { needed: m }) => {
            Failure::TermsOver { needed: n.min(m) }
        }
        _ => Failure::PrimesOver,
    }
}

/// What some tries come to behind others that fail.
pub(crate) fn behind(first: Failure, second: Attempt) -> Attempt
    ensures { result ≡ behind_failure first second }
{
    match second {
        Attempt::Fits { low, terms } => Attempt::Fits { low, terms },
        Attempt::Fails(failure) => Attempt::Fails(both(first, failure)),
    }
}
