// The zero test (01, "Draws from lent random octets": zero test): whether the key's value at a secret is 0.
// It refuses a length that is not the exact one (6), a secret with an unused bit set (7), a coefficient of the key that is not below q (8)
// and a secret element with a zero top coefficient (14); a refusal leaves the answer as it was. The set is accepted. The work words are zero
// after every ending past the length test. The contract is the definitions' TellsZero.
#![tactic(auto)]

ghost use Rattle.definitions.specs.Promises.{TellsZero};
ghost use Rattle.parameters.specs.Answers.{set_from};
ghost use Rattle.parameters.specs.Refusals.{number_in};
ghost use Rattle.secrets.specs.Secrets.{ValueInputs};
ghost use Rattle.zero_test.specs.Tested.{Tested};

use parameters::Parameters;
use parameters::refusals::Refusal;

// The test, after the length test; the work words are left as they come.
fn tested(
    p: Parameters,
    secret: &[u8],
    public: &[u8],
    work: &mut [u32],
    zero: &mut u32,
) -> Result<(), Refusal>
    requires { ValueInputs (set_from p) p.set.dx secret.now public.now work.old }
    ensures { Tested (set_from p) secret.now public.now (number_in result) zero.old zero.new }
{
    secrets::value(p, p.set.dx as usize, secret, public, work)?;
    let n = p.set.n as usize;
    let from = 2 * n;
    let end = from + n;
    *zero = ring::vanishes(work, from, end) as u32;
    Ok(())
}

pub fn is_zero(
    p: Parameters,
    secret: &[u8],
    public: &[u8],
    work: &mut [u32],
    zero: &mut u32,
) -> Result<(), Refusal>
    ensures { TellsZero (set_from p) secret public work zero (number_in result) }
{
    if !lengths::keys_exact(p, secret.len(), public.len(), work.len()) {
        return Err(Refusal::Length);
    }
    let outcome = tested(p, secret, public, work, zero);
    ring::cleared(work, outcome)
}
