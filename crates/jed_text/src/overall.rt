ghost use Rattle.std.specs.Prelude.{◌≡◌};
ghost use Rattle.jed_text.specs.Bodies.{statements_of};
ghost use Rattle.jed_text.specs.Overalls.{overall_with, overall_in};
ghost use Rattle.jed_text.specs.Sayings.{said_of};

use crate::body::Body;
use crate::said::Said;
use mig_base::{JedError, MOST_FUSES};

/// What fields say of all fuses: their number, and the state of each one that is not listed.
#[derive(Clone, Copy)]
pub struct Overall {
    pub count: Option<u32>,
    pub default: Option<bool>,
}

impl Overall {
    /// The same with a field that says this at the place `at`, or why the field cannot stand there.
    fn with(self, at: usize, said: Said) -> Result<Overall, JedError>
        ensures { result ≡ overall_with self at (said_of said.entry) }
    {
        match said {
            Said::Formless => Err(JedError::BadField { at }),
            Said::Kept => Err(JedError::FieldK { at }),
            Said::Count(_) if self.count.is_some() => Err(JedError::CountTwice { at }),
            Said::Count(found) if found as usize > MOST_FUSES => Err(JedError::CountOver { found }),
            Said::Count(count) => Ok(Overall {
                count: Some(count),
                ..self
            }),
            Said::Default(_) if self.default.is_some() => Err(JedError::DefaultTwice { at }),
            Said::Default(state) => Ok(Overall {
                default: Some(state),
                ..self
            }),
            _ => Ok(self),
        }
    }
}

/// What the fields of a body say of all fuses, or the first field that has not its form or cannot stand where it stands.
pub fn overall_of(body: Body) -> Result<Overall, JedError>
    ensures { result ≡ overall_in (statements_of body.entry) }
{
    let mut overall = Overall {
        count: None,
        default: None,
    };
    for field in body.fields() {
        overall = overall.with(field.at, field.said())?;
    }
    Ok(overall)
}
