// The conversions between octets and coefficient words of 32 bits (01, "What the library does"), of a set that was accepted: so many ring
// elements (a ring element is 1, a public key or a ciphertext one for each of its monomials), and so many packed small elements (a small
// element is 1, a secret key 2, each with its own unused bits). Each call compares both lengths (6), then judges the unused bits (7) or the
// coefficients (8), and writes only where all of them pass: a refusal leaves the output as it was. The four stay apart: each judges and
// converts by functions of its own. The contracts cite the definitions' Decodes, Encodes, Unpacks and Packs; those of the steps also
// specs/Packed.antt.
#![tactic(auto)]

ghost use Rattle.std.specs.Prelude.{◌≡◌, true, ◌&&◌, ◌*◌, ◌^◌, ◌≤◌, eqb, length};
ghost use Rattle.definitions.specs.Refusals.{first_refusal};
ghost use Rattle.definitions.specs.Parameters.{small_bits, small_length};
ghost use Rattle.definitions.specs.Octets.{coefficients_fit};
ghost use Rattle.definitions.specs.Conversions.{packed_from_tests};
ghost use Rattle.definitions.specs.Promises.{Decodes, Encodes, Unpacks, Packs};
ghost use Rattle.parameters.specs.Answers.{set_from};
ghost use Rattle.parameters.specs.Refusals.{number_in};
ghost use Rattle.conversions.specs.Packed.{PackedLengths, each_unpacked, each_packed};

use parameters::Parameters;
use parameters::refusals::Refusal;

// Whether there are `size` octets, and the words of so many elements.
fn lengths_exact(p: Parameters, elements: usize, size: usize, octets: usize, words: usize) -> bool
    requires { elements ≤ 15 }
    ensures { result ≡ (eqb octets size && eqb words (elements * p.set.n)) }
{
    (octets == size) & (words == elements * (p.set.n as usize))
}

// So many ring elements from octets.
pub fn decode(
    p: Parameters,
    elements: usize,
    octets: &[u8],
    words: &mut [u32],
) -> Result<(), Refusal>
    requires { elements ≤ 15 }
    ensures { Decodes (set_from p) elements octets words (number_in result) }
{
    let size = lengths::elements_length(p.set, elements);
    if !lengths_exact(p, elements, size, octets.len(), words.len()) {
        return Err(Refusal::Length);
    }
    let qlen = lengths::octets_of_coefficient(p.set.q);
    judging::judge(octets, qlen, p.set.q)?;
    decoding::decode(octets, qlen, words);
    Ok(())
}

// So many ring elements to octets.
pub fn encode(
    p: Parameters,
    elements: usize,
    words: &[u32],
    octets: &mut [u8],
) -> Result<(), Refusal>
    requires { elements ≤ 15 }
    ensures { Encodes (set_from p) elements words octets (number_in result) }
{
    let size = lengths::elements_length(p.set, elements);
    if !lengths_exact(p, elements, size, octets.len(), words.len()) {
        return Err(Refusal::Length);
    }
    judging::judge_words(words, p.set.q)?;
    encoding::encode(words, lengths::octets_of_coefficient(p.set.q), octets);
    Ok(())
}

// Refused where an unused bit of a packed element is not zero.
fn judge_padding(p: Parameters, elements: usize, octets: &[u8]) -> Result<(), Refusal>
    requires { length octets.now ≡ elements * small_length (set_from p) }
    ensures { number_in result ≡ first_refusal (packed_from_tests (set_from p) elements octets.now) }
{
    let len = lengths::small_length(p.set);
    let used = (p.set.n as usize) * (parameters::bits(p.set.l) as usize);
    for i in 0..elements {
        let from = i * len;
        packing::padding(&octets[from..from + len], used)?;
    }
    Ok(())
}

fn unpack_each(p: Parameters, elements: usize, octets: &[u8], words: &mut [u32])
    requires { PackedLengths (set_from p) elements octets.now words.old }
    ensures { words.new ≡ each_unpacked (set_from p) elements octets.now }
{
    let len = lengths::small_length(p.set);
    let n = p.set.n as usize;
    let b = parameters::bits(p.set.l);
    for i in 0..elements {
        let from = i * len;
        let to = i * n;
        unpacking::unpack(&octets[from..from + len], b, &mut words[to..to + n]);
    }
}

// So many packed small elements from octets.
pub fn unpack(
    p: Parameters,
    elements: usize,
    octets: &[u8],
    words: &mut [u32],
) -> Result<(), Refusal>
    requires { elements ≤ 2 }
    ensures { Unpacks (set_from p) elements octets words (number_in result) }
{
    let size = elements * lengths::small_length(p.set);
    if !lengths_exact(p, elements, size, octets.len(), words.len()) {
        return Err(Refusal::Length);
    }
    judge_padding(p, elements, octets)?;
    unpack_each(p, elements, octets, words);
    Ok(())
}

fn pack_each(p: Parameters, elements: usize, words: &[u32], octets: &mut [u8])
    requires { PackedLengths (set_from p) elements octets.old words.now × (coefficients_fit (2 ^ small_bits p.set.l) words.now ≡ true) }
    ensures { octets.new ≡ each_packed (set_from p) elements words.now }
{
    let len = lengths::small_length(p.set);
    let n = p.set.n as usize;
    let b = parameters::bits(p.set.l);
    for i in 0..elements {
        let from = i * n;
        let to = i * len;
        packing::pack(&words[from..from + n], b, &mut octets[to..to + len]);
    }
}

// So many packed small elements to octets.
pub fn pack(p: Parameters, elements: usize, words: &[u32], octets: &mut [u8]) -> Result<(), Refusal>
    requires { elements ≤ 2 }
    ensures { Packs (set_from p) elements words octets (number_in result) }
{
    let size = elements * lengths::small_length(p.set);
    if !lengths_exact(p, elements, size, octets.len(), words.len()) {
        return Err(Refusal::Length);
    }
    judging::judge_small(words, parameters::bits(p.set.l))?;
    pack_each(p, elements, words, octets);
    Ok(())
}
