// A polynomial's value at a secret, from their octets: what decryption and the zero test share.
// The secret's unused bits are judged (7), the polynomial's coefficients as they are read (8), then the top coefficients of the secret's
// elements (14); the set and the lengths are the caller's to test. The work words are left as they come, after a refusal too; the caller
// clears them. The contracts cite the definitions' secret_x, secret_y, full_degree, value and secret_tests.
#![tactic(auto)]

ghost use Rattle.std.specs.Prelude.{◌≡◌, ◌&&◌, ◌+◌, ◌*◌, ◌≤◌, length};
ghost use Rattle.definitions.specs.Parameters.{small_bits, small_length, secret_length, work_length};
ghost use Rattle.definitions.specs.Ring.{full_degree};
ghost use Rattle.definitions.specs.Octets.{unpacked, padding_clear};
ghost use Rattle.definitions.specs.Calls.{secret_bits_clear};
ghost use Rattle.ring.specs.Work.{part, written};
ghost use Rattle.parameters.specs.Answers.{set_from};
ghost use Rattle.parameters.specs.Refusals.{number_in};
ghost use Rattle.secrets.specs.Secrets.{half, ValueInputs, Unpacked, Valued};

use parameters::Parameters;
use parameters::refusals::Refusal;

// Whether the unused bits of one element of the secret are zero.
fn half_bits_clear(p: Parameters, secret: &[u8], from: usize) -> bool
    requires { from + small_length (set_from p) ≤ length secret.now }
    ensures { result ≡ padding_clear (p.set.n * small_bits p.set.l) (half (set_from p) from secret.now) }
{
    let end = from + lengths::small_length(p.set);
    let used = (p.set.n as usize) * (parameters::bits(p.set.l) as usize);
    packing::padding(&secret[from..end], used).is_ok()
}

fn bits_clear(p: Parameters, secret: &[u8]) -> bool
    requires { length secret.now ≡ secret_length (set_from p) }
    ensures { result ≡ secret_bits_clear (set_from p) secret.now }
{
    let second = lengths::small_length(p.set);
    half_bits_clear(p, secret, 0) & half_bits_clear(p, secret, second)
}

// One element of the secret, into a part of the work words.
fn unpack_half(p: Parameters, secret: &[u8], from: usize, work: &mut [u32], at: usize)
    requires { (from + small_length (set_from p) ≤ length secret.now) × (at + p.set.n ≤ length work.old) }
    ensures { work.new ≡ written at (unpacked (small_bits p.set.l) p.set.n (half (set_from p) from secret.now)) work.old }
{
    let end = from + lengths::small_length(p.set);
    let b = parameters::bits(p.set.l);
    let stop = at + (p.set.n as usize);
    unpacking::unpack(&secret[from..end], b, &mut work[at..stop]);
}

fn unpack(p: Parameters, secret: &[u8], work: &mut [u32])
    requires { (length secret.now ≡ secret_length (set_from p)) × (length work.old ≡ work_length (set_from p)) }
    ensures { Unpacked (set_from p) secret.now work.new }
{
    let second = lengths::small_length(p.set);
    unpack_half(p, secret, 0, work, 0);
    unpack_half(p, secret, second, work, p.set.n as usize);
}

// Whether both elements of the secret, in the first two parts of the work words, have degree n - 1 (02, Q-3).
#[tactic(auto, unfolding(definitions::specs::Ring::full_degree))]
fn full_degree(p: Parameters, work: &[u32]) -> bool
    requires { 2 * p.set.n ≤ length work.now }
    ensures { result ≡ (full_degree p.set.n (part work.now 0) && full_degree p.set.n (part work.now p.set.n)) }
{
    let n = p.set.n as usize;
    let top = n - 1;
    (work[top] != 0) & (work[n + top] != 0)
}

// The value of the polynomial of degree d in the octets, into the third part.
pub fn value(
    p: Parameters,
    d: usize,
    secret: &[u8],
    octets: &[u8],
    work: &mut [u32],
) -> Result<(), Refusal>
    requires { ValueInputs (set_from p) d secret.now octets.now work.old }
    ensures { Valued (set_from p) d secret.now octets.now (number_in result) work.new }
{
    if !bits_clear(p, secret) {
        return Err(Refusal::Padding);
    }
    unpack(p, secret, work);
    // looked at here, where the words hold the secret; answered after 8
    let full = full_degree(p, work);
    let n = p.set.n as usize;
    let qlen = lengths::octets_of_coefficient(p.set.q);
    values::evaluate(octets, d, n, qlen, p.set.q, work)?;
    if !full {
        return Err(Refusal::TopCoefficient);
    }
    Ok(())
}
