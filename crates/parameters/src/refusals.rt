// Why a call refuses (01, "Refusal table", and 02), and the number that its caller is given: 0 is success.
ghost use Rattle.std.specs.Prelude.{◌≡◌, Result};
ghost use Rattle.parameters.specs.Refusals.{refusal_number, number_in};

#[derive(Clone, Copy, PartialEq, Eq, Debug)]
pub enum Refusal {
    Range = 1,
    Ring = 2,
    Degree = 3,
    Modulus = 4,
    MessageSize = 5,
    Length = 6,
    Padding = 7,
    Coefficient = 8,
    // 01: spent
    Exhausted = 9,
    Tail = 10,
    Line = 11,
    // 02, Q-3: a given secret element has a zero top coefficient
    TopCoefficient = 14,
    // 02, Q-7: the edition is neither 1 nor 2
    Edition = 18,
}

impl From<Refusal> for u32 {
    ghost from_gives = { λ refusal r. r ≡ refusal_number refusal };

    fn from(refusal: Refusal) -> u32 {
        refusal as u32
    }
}

// The number of an outcome.
pub fn number(outcome: Result<(), Refusal>) -> u32
    ensures { result ≡ number_in outcome }
{
    match outcome {
        Ok(()) => 0,
        Err(refusal) => u32::from(refusal),
    }
}
