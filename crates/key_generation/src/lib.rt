// Key generation (01, "Draws from lent random octets": key making): u_x and u_y are drawn first, each until it has degree n - 1 (02, Q-3), then the
// elements of every term but the constant, and in edition 2 (02, Q-7) one for the constant, which is thrown away; the constant is minus the value of
// the terms at (u_x, u_y), so that the secret is a zero of the key.
//
// A length that is not the exact one is refused (6), and nothing is touched; random octets that end before the last
// draw is complete are refused (9), and the outputs stay as they were and the work words are zero. All that is drawn stands in the work
// words, u_x and u_y in the first two parts and the terms behind them, before an output is written; 0 for the constant goes over what was
// thrown away. With the keys it says the octets used, the groups dropped (02, Q-1) and the elements dropped (02, Q-3). The contract is the
// definitions' Makes.
#![tactic(auto)]

ghost use Rattle.std.specs.Prelude.{◌≡◌, true, ◌+◌, ◌*◌, ◌≤◌, ◌<◌, length};
ghost use Rattle.std.proofs.Math.Seq.{slice};
ghost use Rattle.definitions.specs.Parameters.{small_bits, monomial_count, small_length, public_length};
ghost use Rattle.definitions.specs.Ring.{InRing};
ghost use Rattle.definitions.specs.Octets.{decoded, coefficients_fit, packed};
ghost use Rattle.definitions.specs.Calls.{keys_exact};
ghost use Rattle.definitions.specs.Promises.{Makes};
ghost use Rattle.definitions.specs.Demand3.{InSmallRing, secret_of};
ghost use Rattle.parameters.specs.Answers.{set_from};
ghost use Rattle.parameters.specs.Refusals.{number_in};
ghost use Rattle.ring.specs.Work.{part};
ghost use Rattle.decoding.specs.Elements.{Sizes};
ghost use Rattle.key_draws.specs.Keys.{Follows, words_x, words_y, KeyWords, public_in};
ghost use Rattle.key_generation.specs.Keys.{with_constant};

use parameters::Parameters;
use parameters::refusals::Refusal;

// The octets of the secret element at a place of the work words, into the octets at a place on.
fn write_half(p: Parameters, work: &[u32], at: usize, secret: &mut [u8], to: usize)
    requires { (at + p.set.n ≤ length work.now) × InSmallRing (set_from p) (slice at (at + p.set.n) work.now) × (to + small_length (set_from p) ≤ length secret.old) }
    ensures { Follows to (to + small_length (set_from p)) (packed (small_bits p.set.l) (small_length (set_from p)) (slice at (at + p.set.n) work.now)) secret.old secret.new }
{
    let stop = at + p.set.n as usize;
    let end = to + lengths::small_length(p.set);
    packing::pack(
        &work[at..stop],
        parameters::bits(p.set.l),
        &mut secret[to..end],
    );
}

// The secret's octets.
fn write_secret(p: Parameters, secret: &mut [u8], work: &[u32])
    requires { KeyWords (set_from p) work.now × (length secret.old ≡ small_length (set_from p) + small_length (set_from p)) }
    ensures { secret.new ≡ secret_of (set_from p) (words_x (set_from p) work.now) (words_y (set_from p) work.now) }
{
    let n = p.set.n as usize;
    let one = lengths::small_length(p.set);
    write_half(p, work, 0, secret, 0);
    write_half(p, work, n, secret, one);
}

// The octets of the constant that makes the secret in the first two parts of the work words a zero of a key whose constant is 0.
fn write_constant(public: &mut [u8], d: usize, n: usize, qlen: usize, q: u32, work: &mut [u32])
    requires sizes { Sizes n qlen work.old × (d ≤ 8) × (length public.old ≡ monomial_count d * n * qlen) × (16 ≤ q) × (q < 2147483648) }
    requires fit { (coefficients_fit q (decoded qlen (monomial_count d * n) public.old) ≡ true) × InRing 16 n (part work.old 0) × InRing 16 n (part work.old n) }
    ensures { public.new ≡ with_constant d n qlen q public.old work.old }
{
    // it refuses nothing: each coefficient is below q
    let _ = values::evaluate(public, d, n, qlen, q, work);
    let at = 2 * n;
    let stop = at + n;
    ring::negate(work, at, n, q);
    let from = public.len() - n * qlen;
    encoding::encode(&work[at..stop], qlen, &mut public[from..]);
}

// The public key's octets: those of the terms, and of 0 for the constant, until it is known.
fn write_public(p: Parameters, public: &mut [u8], work: &mut [u32])
    requires { KeyWords (set_from p) work.old × (length public.old ≡ public_length (set_from p)) }
    ensures { public.new ≡ public_in (set_from p) work.old }
{
    let n = p.set.n as usize;
    let qlen = lengths::octets_of_coefficient(p.set.q);
    let at = n + n;
    let stop = key_draws::terms_end(p);
    let end = stop + n;
    ring::clear(&mut work[stop..end]);
    encoding::encode(&work[at..end], qlen, public);
    write_constant(public, p.set.dx as usize, n, qlen, p.set.q, work);
}

// With every length exact: all is drawn before an output is written. One parameter for each argument of the C call.
fn keygen_exact(
    p: Parameters,
    random: &[u8],
    secret: &mut [u8],
    public: &mut [u8],
    work: &mut [u32],
    used: &mut u64,
    dropped_groups: &mut u64,
    dropped_elements: &mut u64,
) -> Result<(), Refusal>
    requires { keys_exact (set_from p) (length secret.old) (length public.old) (length work.old) ≡ true }
    ensures { Makes (set_from p) random secret public work used dropped_groups dropped_elements (number_in result) }
{
    let run = match key_draws::draw_keys(p, random, work) {
        Ok(run) => run,
        Err(refusal) => return ring::cleared(work, Err(refusal)),
    };
    write_secret(p, secret, work);
    write_public(p, public, work);
    *used = run.octets as u64;
    *dropped_groups = run.groups as u64;
    *dropped_elements = run.elements as u64;
    ring::cleared(work, Ok(()))
}

pub fn keygen(
    p: Parameters,
    random: &[u8],
    secret: &mut [u8],
    public: &mut [u8],
    work: &mut [u32],
    used: &mut u64,
    dropped_groups: &mut u64,
    dropped_elements: &mut u64,
) -> Result<(), Refusal>
    ensures { Makes (set_from p) random secret public work used dropped_groups dropped_elements (number_in result) }
{
    if !lengths::keys_exact(p, secret.len(), public.len(), work.len()) {
        return Err(Refusal::Length);
    }
    keygen_exact(
        p,
        random,
        secret,
        public,
        work,
        used,
        dropped_groups,
        dropped_elements,
    )
}
