// The C interface (include/giophantus.h): every call begins with the numbers of the set, one struct by value (02, Q-7), and answers the
// refusal number, 0 at success. Nothing here asks anything of its callers: unfit input is refused by document 01's table, and a refusal
// leaves every output as it was. Each export makes the set by its constructor and goes on with an accepted one; its contract is the
// definitions' promise of the call (definitions/specs/Promises.antt) at the set that the numbers name, and set_tests for the check. Each
// export has its own name in C, and is kept as a match: of a call passed on as a closure, a proof would not know what the buffers hold where
// the set is refused.
#![tactic(auto)]

pub mod conversion;

ghost use Rattle.std.specs.Prelude.{◌≡◌};
ghost use Rattle.definitions.specs.Refusals.{first_refusal};
ghost use Rattle.definitions.specs.Parameters.{set_tests};
ghost use Rattle.definitions.specs.Promises.{Bounds, Measures, Makes, TellsZero, Encrypts, Adds, Decrypts, MultipliesAndAdds};
ghost use Rattle.parameters.specs.Answers.{numbers_from};

use addition::add;
use decryption::decrypt;
use encryption::encrypt;
use key_generation::keygen;
use multiply_add::multiply_add;
use parameters::{Parameters, SetNumbers, refusals};
use zero_test::is_zero;

// The set's refusal, 0 where it is accepted.
#[unsafe(no_mangle)]
pub extern "C" fn giophantus_check(set: SetNumbers) -> u32
    ensures { result ≡ first_refusal (set_tests (numbers_from set)) }
{
    match Parameters::new(set) {
        Ok(_) => 0,
        Err(refusal) => u32::from(refusal),
    }
}

// The noise bound and the headroom.
#[unsafe(no_mangle)]
pub extern "C" fn giophantus_limits(set: SetNumbers, bound: &mut u32, headroom: &mut u32) -> u32
    ensures { Bounds (numbers_from set) bound headroom result }
{
    match Parameters::new(set) {
        Ok(p) => {
            let x = parameters::limits(p);
            *bound = x.bound;
            *headroom = x.headroom;
            0
        }
        Err(refusal) => u32::from(refusal),
    }
}

// The octets of each thing, and the words of work.
#[unsafe(no_mangle)]
pub extern "C" fn giophantus_lengths(
    set: SetNumbers,
    secret_key: &mut u64,
    public_key: &mut u64,
    message: &mut u64,
    ciphertext: &mut u64,
    work: &mut u64,
) -> u32
    ensures { Measures (numbers_from set) secret_key public_key message ciphertext work result }
{
    match Parameters::new(set) {
        Ok(p) => {
            *secret_key = lengths::secret_length(p.set) as u64;
            *public_key = lengths::public_length(p.set) as u64;
            *message = lengths::message_length(p.set) as u64;
            *ciphertext = lengths::ciphertext_length(p.set) as u64;
            *work = lengths::work_length(p.set) as u64;
            0
        }
        Err(refusal) => u32::from(refusal),
    }
}

// A secret key and its public key from random octets, the octets used, and the groups and the elements dropped.
#[unsafe(no_mangle)]
pub extern "C" fn giophantus_keygen(
    set: SetNumbers,
    random: &[u8],
    secret: &mut [u8],
    public: &mut [u8],
    work: &mut [u32],
    used: &mut u64,
    groups: &mut u64,
    elements: &mut u64,
) -> u32
    ensures { Makes (numbers_from set) random secret public work used groups elements result }
{
    match Parameters::new(set) {
        Ok(p) => refusals::number(keygen(p, random, secret, public, work, used, groups, elements)),
        Err(refusal) => u32::from(refusal),
    }
}

// Whether a secret key is a zero of a public key: 1 yes, 0 no.
#[unsafe(no_mangle)]
pub extern "C" fn giophantus_is_zero(
    set: SetNumbers,
    secret_key: &[u8],
    public_key: &[u8],
    work: &mut [u32],
    zero: &mut u32,
) -> u32
    ensures { TellsZero (numbers_from set) secret_key public_key work zero result }
{
    match Parameters::new(set) {
        Ok(p) => refusals::number(is_zero(p, secret_key, public_key, work, zero)),
        Err(refusal) => u32::from(refusal),
    }
}

// A ciphertext of a message under a public key, the octets used and the groups dropped.
#[unsafe(no_mangle)]
pub extern "C" fn giophantus_encrypt(
    set: SetNumbers,
    public_key: &[u8],
    message: &[u8],
    random: &[u8],
    ciphertext: &mut [u8],
    work: &mut [u32],
    used: &mut u64,
    dropped: &mut u64,
) -> u32
    ensures { Encrypts (numbers_from set) public_key message random ciphertext work used dropped result }
{
    match Parameters::new(set) {
        Ok(p) => refusals::number(encrypt(
            p, public_key, message, random, ciphertext, work, used, dropped,
        )),
        Err(refusal) => u32::from(refusal),
    }
}

// The sum of two ciphertexts, which may be one buffer.
#[unsafe(no_mangle)]
pub extern "C" fn giophantus_add(set: SetNumbers, a: &[u8], b: &[u8], sum: &mut [u8]) -> u32
    ensures { Adds (numbers_from set) a b sum result }
{
    match Parameters::new(set) {
        Ok(p) => refusals::number(add(p, a, b, sum)),
        Err(refusal) => u32::from(refusal),
    }
}

// The message of a ciphertext, or of a sum of ciphertexts.
#[unsafe(no_mangle)]
pub extern "C" fn giophantus_decrypt(
    set: SetNumbers,
    secret_key: &[u8],
    ciphertext: &[u8],
    message: &mut [u8],
    work: &mut [u32],
) -> u32
    ensures { Decrypts (numbers_from set) secret_key ciphertext message work result }
{
    match Parameters::new(set) {
        Ok(p) => refusals::number(decrypt(p, secret_key, ciphertext, message, work)),
        Err(refusal) => u32::from(refusal),
    }
}

// a × b + c in R_q, three elements as words: c and the result in the same words. a and b stay, and may be one buffer.
#[unsafe(no_mangle)]
pub extern "C" fn giophantus_multiply_add(
    set: SetNumbers,
    a: &[u32],
    b: &[u32],
    c: &mut [u32],
) -> u32
    ensures { MultipliesAndAdds (numbers_from set) a b c result }
{
    match Parameters::new(set) {
        Ok(p) => refusals::number(multiply_add(p, a, b, c)),
        Err(refusal) => u32::from(refusal),
    }
}
