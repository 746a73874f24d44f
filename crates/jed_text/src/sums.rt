ghost use Rattle.std.specs.Prelude.{◌≡◌, []};
ghost use Rattle.mig_base.specs.First.{first_refusal};
ghost use Rattle.mig_base.specs.FuseText as spec;
ghost use Rattle.jed_text.specs.Bodies.{statements_of};
ghost use Rattle.jed_text.specs.Sayings.{said_of};

use crate::body::Body;
use crate::said::Said;
use mig_base::JedError;

/// A said fuse sum that is another than the found one.
fn sum_refusal(found: u16, said: Said) -> Option<JedError>
    ensures { result ≡ spec.sum_refusal_by found (said_of said.entry) }
{
    match said {
        Said::FuseSum(said) if said != found => Some(JedError::BadFuseSum { said, found }),
        _ => None,
    }
}

/// The first said fuse sum that is another than the found one.
pub fn first_other_sum(found: u16, body: Body) -> Option<JedError>
    ensures { result ≡ first_refusal (λ before f. spec.sum_refusal found f) [] (statements_of body.entry) }
{
    for field in body.fields() {
        if let Some(refusal) = sum_refusal(found, field.said()) {
            return Some(refusal);
        }
    }
    None
}
