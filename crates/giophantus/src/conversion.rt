// The conversions of the C interface: octets to coefficient words and back.
ghost use Rattle.std.specs.Prelude.{◌+◌};
ghost use Rattle.definitions.specs.Parameters.{monomial_count};
ghost use Rattle.definitions.specs.Promises.{Decodes, Encodes, Unpacks, Packs};
ghost use Rattle.parameters.specs.Answers.{numbers_from};

use conversions::{decode, encode, pack, unpack};
use monomials::monomial_count;
use parameters::{Parameters, SetNumbers, refusals};

// A ring element: n coefficients of qlen octets each.
#[unsafe(no_mangle)]
pub extern "C" fn giophantus_element_from_octets(
    set: SetNumbers,
    octets: &[u8],
    words: &mut [u32],
) -> u32
    ensures { Decodes (numbers_from set) 1 octets words result }
{
    match Parameters::new(set) {
        Ok(p) => refusals::number(decode(p, 1, octets, words)),
        Err(refusal) => u32::from(refusal),
    }
}

#[unsafe(no_mangle)]
pub extern "C" fn giophantus_element_to_octets(
    set: SetNumbers,
    words: &[u32],
    octets: &mut [u8],
) -> u32
    ensures { Encodes (numbers_from set) 1 words octets result }
{
    match Parameters::new(set) {
        Ok(p) => refusals::number(encode(p, 1, words, octets)),
        Err(refusal) => u32::from(refusal),
    }
}

// A public key: its elements in monomial order.
#[unsafe(no_mangle)]
pub extern "C" fn giophantus_public_key_from_octets(
    set: SetNumbers,
    octets: &[u8],
    words: &mut [u32],
) -> u32
    ensures { Decodes (numbers_from set) (monomial_count set.dx) octets words result }
{
    match Parameters::new(set) {
        Ok(p) => refusals::number(decode(p, monomial_count(set.dx), octets, words)),
        Err(refusal) => u32::from(refusal),
    }
}

#[unsafe(no_mangle)]
pub extern "C" fn giophantus_public_key_to_octets(
    set: SetNumbers,
    words: &[u32],
    octets: &mut [u8],
) -> u32
    ensures { Encodes (numbers_from set) (monomial_count set.dx) words octets result }
{
    match Parameters::new(set) {
        Ok(p) => refusals::number(encode(p, monomial_count(set.dx), words, octets)),
        Err(refusal) => u32::from(refusal),
    }
}

// A ciphertext: its elements in monomial order.
#[unsafe(no_mangle)]
pub extern "C" fn giophantus_ciphertext_from_octets(
    set: SetNumbers,
    octets: &[u8],
    words: &mut [u32],
) -> u32
    ensures { Decodes (numbers_from set) (monomial_count (set.dx + set.dr)) octets words result }
{
    match Parameters::new(set) {
        Ok(p) => refusals::number(decode(p, monomial_count(set.dx + set.dr), octets, words)),
        Err(refusal) => u32::from(refusal),
    }
}

#[unsafe(no_mangle)]
pub extern "C" fn giophantus_ciphertext_to_octets(
    set: SetNumbers,
    words: &[u32],
    octets: &mut [u8],
) -> u32
    ensures { Encodes (numbers_from set) (monomial_count (set.dx + set.dr)) words octets result }
{
    match Parameters::new(set) {
        Ok(p) => refusals::number(encode(p, monomial_count(set.dx + set.dr), words, octets)),
        Err(refusal) => u32::from(refusal),
    }
}

// A small element, packed.
#[unsafe(no_mangle)]
pub extern "C" fn giophantus_small_from_octets(
    set: SetNumbers,
    octets: &[u8],
    words: &mut [u32],
) -> u32
    ensures { Unpacks (numbers_from set) 1 octets words result }
{
    match Parameters::new(set) {
        Ok(p) => refusals::number(unpack(p, 1, octets, words)),
        Err(refusal) => u32::from(refusal),
    }
}

#[unsafe(no_mangle)]
pub extern "C" fn giophantus_small_to_octets(
    set: SetNumbers,
    words: &[u32],
    octets: &mut [u8],
) -> u32
    ensures { Packs (numbers_from set) 1 words octets result }
{
    match Parameters::new(set) {
        Ok(p) => refusals::number(pack(p, 1, words, octets)),
        Err(refusal) => u32::from(refusal),
    }
}

// A secret key: its two small elements, packed.
#[unsafe(no_mangle)]
pub extern "C" fn giophantus_secret_key_from_octets(
    set: SetNumbers,
    octets: &[u8],
    words: &mut [u32],
) -> u32
    ensures { Unpacks (numbers_from set) 2 octets words result }
{
    match Parameters::new(set) {
        Ok(p) => refusals::number(unpack(p, 2, octets, words)),
        Err(refusal) => u32::from(refusal),
    }
}

#[unsafe(no_mangle)]
pub extern "C" fn giophantus_secret_key_to_octets(
    set: SetNumbers,
    words: &[u32],
    octets: &mut [u8],
) -> u32
    ensures { Packs (numbers_from set) 2 words octets result }
{
    match Parameters::new(set) {
        Ok(p) => refusals::number(pack(p, 2, words, octets)),
        Err(refusal) => u32::from(refusal),
    }
}
