//! A rule by three bytes: a kind and two weights.
ghost use Rattle.std.specs.Prelude.{◌≡◌};
ghost use Rattle.rules.specs.Choices.{Chosen, plain, weight_from};

use crate::bottom::Kind;
use crate::weighted::check_weight;
use model::Refusal;

/// Which rule is meant: the S-weight over the C-weight over a kind.
#[derive(Clone, Copy, PartialEq, Eq, Debug)]
pub struct Choice {
    pub kind: Kind,
    /// The C-weight.
    pub execution: i32,
    /// The S-weight.
    pub suspension: i32,
}

impl Choice {
    /// Deadline with weights 0: what is meant where nothing is chosen.
    pub const fn plain() -> Choice
        ensures value { result ≡ plain }
    {
        Choice {
            kind: Kind::Deadline,
            execution: 0,
            suspension: 0,
        }
    }
}

/// The plain choice.
// Not a derive: what is meant where nothing is chosen is a promise, and a derive would promise whatever it makes.
impl Default for Choice {
    ghost is_default = { λ choice. choice ≡ plain };

    fn default() -> Choice {
        Choice::plain()
    }
}

// A weight from its byte in two's complement. Refused outside −16 … 16.
// Not a `TryFrom`: byte and number are the language's own types.
fn weight(byte: u8) -> Result<i32, Refusal>
    ensures answer { result ≡ weight_from byte }
{
    let weight = i32::from(byte.cast_signed());
    check_weight(weight)?;
    Ok(weight)
}

/// The choice that three bytes make: the kind (0 deadline, 1 arrival, 2 level), the C-weight and the S-weight in
/// two's complement. Refused if the kind is above 2 or a weight is outside −16 … 16.
impl TryFrom<[u8; 3]> for Choice {
    type Error = Refusal;

    ghost try_from_gives = { Chosen };

    fn try_from(bytes: [u8; 3]) -> Result<Choice, Refusal> {
        let [kind, execution, suspension] = bytes;
        Ok(Choice {
            kind: Kind::try_from(kind)?,
            execution: weight(execution)?,
            suspension: weight(suspension)?,
        })
    }
}
