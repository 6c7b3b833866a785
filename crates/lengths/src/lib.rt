// The lengths that a set fixes (01, "Ring, monomials, octets"): octets of each thing, words of work. Nothing is refused. With both degrees
// at most 2 no length wraps, whatever the other numbers are, so a length is told of any numbers. The contracts cite the definitions'
// bit_length, qlen and lengths; those of the length tests (refusal 6) keys_exact and its kin.
#![tactic(auto)]

ghost use Rattle.std.specs.Prelude.{◌≡◌, ◌≤◌};
ghost use Rattle.definitions.specs.Parameters.{bit_length, qlen, small_length, secret_length, elements_length, public_length, ciphertext_length, message_length, work_length};
ghost use Rattle.definitions.specs.Calls.{keys_exact, encrypt_exact, add_exact, decrypt_exact};
ghost use Rattle.definitions.specs.MultiplyAdd.{multiply_add_exact};
ghost use Rattle.parameters.specs.Answers.{set_from, numbers_from};

use monomials::monomial_count;
use parameters::{Parameters, SetNumbers};

pub fn bit_length(q: u32) -> u32
    ensures { result ≡ bit_length q }
{
    32 - u32::leading_zeros(q)
}

// qlen: the octets of a coefficient.
pub fn octets_of_coefficient(q: u32) -> usize
    ensures { result ≡ qlen q }
{
    ((bit_length(q) + 7) / 8) as usize
}

pub fn small_length(set: SetNumbers) -> usize
    ensures { result ≡ small_length (numbers_from set) }
{
    ((set.n as usize) * (parameters::bits(set.l) as usize) + 7) / 8
}

pub fn secret_length(set: SetNumbers) -> usize
    ensures { result ≡ secret_length (numbers_from set) }
{
    let one = small_length(set);
    one + one
}

// So many elements of n coefficients each.
pub fn elements_length(set: SetNumbers, elements: usize) -> usize
    requires { elements ≤ 4096 }
    ensures { result ≡ elements_length (numbers_from set) elements }
{
    elements * (set.n as usize) * octets_of_coefficient(set.q)
}

pub fn public_length(set: SetNumbers) -> usize
    requires { set.dx ≤ 2 }
    ensures { result ≡ public_length (numbers_from set) }
{
    elements_length(set, monomial_count(set.dx))
}

pub fn ciphertext_length(set: SetNumbers) -> usize
    requires dx_bound { set.dx ≤ 2 }
    requires dr_bound { set.dr ≤ 2 }
    ensures { result ≡ ciphertext_length (numbers_from set) }
{
    elements_length(set, monomial_count(set.dx + set.dr))
}

pub fn message_length(set: SetNumbers) -> usize
    ensures { result ≡ message_length (numbers_from set) }
{
    ((set.mlen as usize) + 7) / 8
}

// Words of 32 bits.
pub fn work_length(set: SetNumbers) -> usize
    ensures { result ≡ work_length (numbers_from set) }
{
    8 * (set.n as usize)
}

// The length test of each call, which compares other lengths in each: whether every buffer that it was lent has its exact length. Both keys
// and the work words.
pub fn keys_exact(p: Parameters, secret: usize, public: usize, work: usize) -> bool
    ensures { result ≡ keys_exact (set_from p) secret public work }
{
    let words = work == work_length(p.set);
    (secret == secret_length(p.set)) & ((public == public_length(p.set)) & words)
}

// What encryption is lent, random octets apart.
pub fn encrypt_exact(
    p: Parameters,
    public: usize,
    message: usize,
    ciphertext: usize,
    work: usize,
) -> bool
    ensures { result ≡ encrypt_exact (set_from p) public message ciphertext work }
{
    let outputs = (ciphertext == ciphertext_length(p.set)) & (work == work_length(p.set));
    (public == public_length(p.set)) & ((message == message_length(p.set)) & outputs)
}

// Two summands and their sum.
pub fn add_exact(p: Parameters, a: usize, b: usize, sum: usize) -> bool
    ensures { result ≡ add_exact (set_from p) a b sum }
{
    let length = ciphertext_length(p.set);
    (a == length) & ((b == length) & (sum == length))
}

// Two factors and a summand, as words.
pub fn multiply_add_exact(set: SetNumbers, a: usize, b: usize, c: usize) -> bool
    ensures { result ≡ multiply_add_exact (numbers_from set) a b c }
{
    let n = set.n as usize;
    (a == n) & ((b == n) & (c == n))
}

// What decryption is lent.
pub fn decrypt_exact(
    p: Parameters,
    secret: usize,
    ciphertext: usize,
    message: usize,
    work: usize,
) -> bool
    ensures { result ≡ decrypt_exact (set_from p) secret ciphertext message work }
{
    let outputs = (message == message_length(p.set)) & (work == work_length(p.set));
    (secret == secret_length(p.set)) & ((ciphertext == ciphertext_length(p.set)) & outputs)
}
