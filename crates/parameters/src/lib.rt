// A parameter set (01, "The parameter set", with 02, Q-7): its tests, its noise bound and headroom, and the bits of a small coefficient.
// `SetNumbers` are the seven numbers as a caller gives them. `Parameters::new` takes them and refuses a set that fails a test with 1 to 5 or 18, the
// first that applies; nothing wraps, whatever the numbers are. It is the only way to a set that is worked with: whatever takes `Parameters` has an
// accepted set. The contracts cite the definitions' set_tests, limits_of and small_bits, through specs/Answers.antt.
#![tactic(auto)]

mod noise;
pub mod refusals;
mod tests;

ghost use Rattle.std.specs.Prelude.{◌≡◌};
ghost use Rattle.definitions.specs.Parameters.{small_bits};
ghost use Rattle.definitions.specs.Demand3.{AcceptedSet};
ghost use Rattle.parameters.specs.Numbers.{numbers_from};

pub use noise::limits;
use refusals::Refusal;

// The numbers of a set, tested or not: giophantus_set of the C interface.
#[repr(C)]
#[derive(Clone, Copy)]
pub struct SetNumbers {
    pub l: u32,
    pub q: u32,
    pub n: u32,
    pub dx: u32,
    pub dr: u32,
    pub mlen: u32,
    pub edition: u32,
}

// A set that passed its tests.
#[derive(Clone, Copy)]
pub struct Parameters {
    pub set: SetNumbers,
    pub ghost accepted: { AcceptedSet (numbers_from set) },
}

// The noise bound B and the headroom s of an accepted set.
#[derive(Clone, Copy)]
pub struct SetLimits {
    pub bound: u32,
    pub headroom: u32,
}

impl Parameters {
    ghost use Rattle.parameters.specs.Answers.{set_answer, checked_as};

    pub const L_LEAST: u32 = 2;

    pub const L_MOST: u32 = 16;

    pub const N_LEAST: u32 = 2;

    pub const N_MOST: u32 = 4096;

    pub const DEGREE_LEAST: u32 = 1;

    pub const DEGREE_MOST: u32 = 2;

    pub const Q_MOST: u32 = 2147483647;

    pub const EDITION_LEAST: u32 = 1;

    pub const EDITION_MOST: u32 = 2;

    // The set, or the first refusal that applies.
    #[tactic(auto, unfolding(crate::specs::Answers::set_answer, definitions::specs::Refusals::answer, definitions::specs::Refusals::first_refusal, definitions::specs::Parameters::set_tests))]
    pub fn new(set: SetNumbers) -> Result<Parameters, Refusal>
        ensures { checked_as result ≡ set_answer (numbers_from set) }
    {
        if !tests::range_fits(set) {
            return Err(Refusal::Range);
        }
        if !tests::ring_fits(set) {
            return Err(Refusal::Ring);
        }
        if !tests::degree_fits(set) {
            return Err(Refusal::Degree);
        }
        if !tests::modulus_fits(set) {
            return Err(Refusal::Modulus);
        }
        if !tests::message_fits(set) {
            return Err(Refusal::MessageSize);
        }
        if !tests::edition_fits(set) {
            return Err(Refusal::Edition);
        }
        Ok(Parameters { set })
    }
}

// b: the bits of a small coefficient.
#[tactic(auto, unfolding(definitions::specs::Parameters::small_bits))]
pub fn bits(l: u32) -> u32
    ensures { result ≡ small_bits l }
{
    match l {
        2 => 1,
        4 => 2,
        8 => 3,
        _ => 4,
    }
}
