// Encryption (01, "Draws from lent random octets": sealing): c = m + X × r + ℓ × e, over R_q.
//
// It refuses a length that is not the exact one (6), and then touches nothing; a message with a bit set past mlen (7), a key's coefficient
// that is not below q (8) and random octets that end too early (9), and then leaves the outputs as they were and the work words zero. The
// mask r is drawn first, into the first parts of the work words, and the octets left for the noise e are counted, so the ciphertext is
// written only where they are enough. With it stand the octets used and the groups dropped (02, Q-1). The contract is the definitions'
// Encrypts.
#![tactic(auto)]

ghost use Rattle.std.specs.Prelude.{◌≡◌, true, length, take};
ghost use Rattle.definitions.specs.Parameters.{work_length};
ghost use Rattle.definitions.specs.Calls.{encrypt_exact, mask_coefficients, mask_draws};
ghost use Rattle.definitions.specs.Promises.{Encrypts};
ghost use Rattle.parameters.specs.Answers.{set_from};
ghost use Rattle.parameters.specs.Refusals.{number_in};
ghost use Rattle.draws.specs.Runs.{said, drawn_answer};
ghost use Rattle.encryption.specs.Steps.{EncryptsOnceCleared};

use draws::Run;
use parameters::Parameters;
use parameters::refusals::Refusal;

// The mask, into the first parts of the work words.
fn draw_mask(p: Parameters, random: &[u8], work: &mut [u32]) -> Result<Run, Refusal>
    requires { length work.old ≡ work_length (set_from p) }
    ensures { said result (take (mask_coefficients (set_from p)) work.new) ≡ drawn_answer (mask_draws (set_from p) random.now) }
{
    let end = monomials::monomial_count(p.set.dr) * (p.set.n as usize);
    draws::draw_below(random, p.set.q, &mut work[..end])
}

// With the lengths exact: the inputs are judged, the mask is drawn, and the octets left for the noise are counted before anything is
// written. The work words are not cleared. One parameter for each argument of the C call.
fn encrypt_fitting(
    p: Parameters,
    public: &[u8],
    message: &[u8],
    random: &[u8],
    ciphertext: &mut [u8],
    work: &mut [u32],
    used: &mut u64,
    dropped_groups: &mut u64,
) -> Result<(), Refusal>
    requires { encrypt_exact (set_from p) (length public.now) (length message.now) (length ciphertext.old) (length work.old) ≡ true }
    ensures { EncryptsOnceCleared (set_from p) public message random ciphertext work used dropped_groups (number_in result) }
{
    let width = lengths::octets_of_coefficient(p.set.q);
    packing::padding(message, p.set.mlen as usize)?;
    judging::judge(public, width, p.set.q)?;
    let run = draw_mask(p, random, work)?;
    let start = width * run.groups;
    let end = start + monomials::monomial_count(p.set.dx + p.set.dr) * lengths::small_length(p.set);
    if random.len() < end {
        return Err(Refusal::Exhausted);
    }
    ciphertext_elements::write_elements(p, public, message, &random[start..], ciphertext, work);
    *used = end as u64;
    *dropped_groups = run.dropped as u64;
    Ok(())
}

pub fn encrypt(
    p: Parameters,
    public: &[u8],
    message: &[u8],
    random: &[u8],
    ciphertext: &mut [u8],
    work: &mut [u32],
    used: &mut u64,
    dropped_groups: &mut u64,
) -> Result<(), Refusal>
    ensures { Encrypts (set_from p) public message random ciphertext work used dropped_groups (number_in result) }
{
    if !lengths::encrypt_exact(p, public.len(), message.len(), ciphertext.len(), work.len()) {
        return Err(Refusal::Length);
    }
    let outcome = encrypt_fitting(
        p,
        public,
        message,
        random,
        ciphertext,
        work,
        used,
        dropped_groups,
    );
    ring::cleared(work, outcome)
}
