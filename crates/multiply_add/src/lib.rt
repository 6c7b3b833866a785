// a × b + c in R_q over coefficient words (02, Q-8), of a set that was accepted: n words each, c and the result in the same words. It
// refuses a length that is not n (6) and a word of the three that is not below q (8); a refusal leaves c as it was. a and b are only read,
// and may be one buffer. The operation is products::multiply_add, whose three elements stand in one list of words: the three are copied
// side by side into one, and the result is copied back. The contract cites the definitions' MultipliesAndAdds.
#![tactic(auto)]

ghost use Rattle.std.specs.Prelude.{◌≡◌, ◌*◌, ◌≤◌};
ghost use Rattle.definitions.specs.MultiplyAdd.{multiply_add_words};
ghost use Rattle.definitions.specs.MultiplyAddHolds.{RingElements};
ghost use Rattle.definitions.specs.Promises.{MultipliesAndAdds};
ghost use Rattle.parameters.specs.Answers.{set_from};
ghost use Rattle.parameters.specs.Refusals.{number_in};

use parameters::Parameters;
use parameters::refusals::Refusal;

// The operation in an array of its own: a from 0 on, b from n on and c from 2 n on.
fn multiply_in_array<const WORDS: usize>(p: Parameters, a: &[u32], b: &[u32], c: &mut [u32])
    requires { RingElements (set_from p) a.now b.now c.old × (3 * p.set.n ≤ WORDS) × (WORDS ≤ 12288) }
    ensures { c.new ≡ multiply_add_words (set_from p) a.now b.now c.old }
{
    let mut words = [0u32; WORDS];
    let q = p.set.q;
    let n = p.set.n as usize;
    let at = 2 * n;
    ring::copy_from(&mut words, 0, a, 0, n);
    ring::copy_from(&mut words, n, b, 0, n);
    ring::copy_from(&mut words, at, c, 0, n);
    products::multiply_add(&mut words, 0, n, at, n, q, q);
    ring::copy_from(c, 0, &words, at, n);
}

// The same in the least of three arrays: clearing it then costs little beside the product.
fn multiply(p: Parameters, a: &[u32], b: &[u32], c: &mut [u32])
    requires { RingElements (set_from p) a.now b.now c.old }
    ensures { c.new ≡ multiply_add_words (set_from p) a.now b.now c.old }
{
    if p.set.n <= 80 {
        multiply_in_array::<240>(p, a, b, c);
    } else if p.set.n <= 1280 {
        multiply_in_array::<3840>(p, a, b, c);
    } else {
        multiply_in_array::<12288>(p, a, b, c);
    }
}

// c := a × b + c under an accepted set, or the refusal.
pub fn multiply_add(p: Parameters, a: &[u32], b: &[u32], c: &mut [u32]) -> Result<(), Refusal>
    ensures { MultipliesAndAdds (set_from p) a b c (number_in result) }
{
    if !lengths::multiply_add_exact(p.set, a.len(), b.len(), c.len()) {
        return Err(Refusal::Length);
    }
    judging::judge_words(a, p.set.q)?;
    judging::judge_words(b, p.set.q)?;
    judging::judge_words(c, p.set.q)?;
    multiply(p, a, b, c);
    Ok(())
}
