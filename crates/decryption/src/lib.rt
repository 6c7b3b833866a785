// Decryption (01, "Draws from lent random octets": opening): w is the ciphertext's value at the secret, and w modulo l the message.
// It refuses a length that is not the exact one (6), a secret with an unused bit set (7), a coefficient of the ciphertext that is not below
// q (8), a secret element with a zero top coefficient (14) and a number past the message that is not 0 (10), in this order; a refusal leaves
// the message as it was. The set is accepted. The work words are zero after every ending past the length test. The contract is the
// definitions' Decrypts.
#![tactic(auto)]

ghost use Rattle.std.specs.Prelude.{◌≡◌, ◌+◌, ◌*◌, ◌^◌, ◌%◌, ◌≤◌, ◌<◌, length};
ghost use Rattle.definitions.specs.Sequences.{tabulate};
ghost use Rattle.definitions.specs.Parameters.{small_bits, message_length, work_length};
ghost use Rattle.definitions.specs.Ring.{modulo};
ghost use Rattle.definitions.specs.Promises.{Decrypts};
ghost use Rattle.parameters.specs.Answers.{set_from};
ghost use Rattle.parameters.specs.Refusals.{number_in};
ghost use Rattle.ring.specs.Work.{part, written};
ghost use Rattle.secrets.specs.Secrets.{ValueInputs};
ghost use Rattle.decryption.specs.Decrypted.{MessageOf, Decrypted};

use parameters::Parameters;
use parameters::refusals::Refusal;

// Each word of a part modulo l, a power of two.
fn reduce(work: &mut [u32], at: usize, n: usize, l: u32)
    requires { (at + n ≤ length work.old) × (l ≡ 2 ^ small_bits l) }
    ensures { work.new ≡ written at (tabulate n (λ k. part work.old at k % l)) work.old }
{
    let mask = l - 1;
    for k in 0..n {
        work[at + k] = work[at + k] & mask;
    }
}

// The message of the element in the third part, modulo l, unless the tail is not zero.
fn write_message(p: Parameters, message: &mut [u8], work: &mut [u32]) -> Result<(), Refusal>
    requires { (length message.old ≡ message_length (set_from p)) × (length work.old ≡ work_length (set_from p)) }
    ensures { MessageOf (set_from p) (modulo p.set.l (part work.old (2 * p.set.n))) (number_in result) message.old message.new }
{
    let n = p.set.n as usize;
    let at = 2 * n;
    let end = at + n;
    reduce(work, at, n, p.set.l);
    let b = parameters::bits(p.set.l);
    let tail = at + ((p.set.mlen / b) as usize);
    if !ring::vanishes(work, tail, end) {
        return Err(Refusal::Tail);
    }
    packing::pack(&work[at..end], b, message);
    Ok(())
}

// Decryption, after the length test; the work words are left as they come.
fn decrypted(
    p: Parameters,
    secret: &[u8],
    ciphertext: &[u8],
    message: &mut [u8],
    work: &mut [u32],
) -> Result<(), Refusal>
    requires { ValueInputs (set_from p) (p.set.dx + p.set.dr) secret.now ciphertext.now work.old × (length message.old ≡ message_length (set_from p)) }
    ensures { Decrypted (set_from p) secret.now ciphertext.now (number_in result) message.old message.new }
{
    let d = (p.set.dx + p.set.dr) as usize;
    secrets::value(p, d, secret, ciphertext, work)?;
    write_message(p, message, work)
}

pub fn decrypt(
    p: Parameters,
    secret: &[u8],
    ciphertext: &[u8],
    message: &mut [u8],
    work: &mut [u32],
) -> Result<(), Refusal>
    ensures { Decrypts (set_from p) secret ciphertext message work (number_in result) }
{
    if !lengths::decrypt_exact(p, secret.len(), ciphertext.len(), message.len(), work.len()) {
        return Err(Refusal::Length);
    }
    let outcome = decrypted(p, secret, ciphertext, message, work);
    ring::cleared(work, outcome)
}
