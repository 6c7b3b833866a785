// Adding two ciphertexts (01, "Draws from lent random octets": adding): element by element, each coefficient modulo q.
// It refuses a length that is not the exact one (6) and a coefficient that is not below q in either summand (8); a refusal leaves the output
// as it was, so both summands are judged before the first octet is written. The two summands may be one buffer. The contract cites the
// definitions' Adds. The sum of two coefficients is ring::sum alone.
#![tactic(auto)]

ghost use Rattle.std.specs.Prelude.{◌≡◌, ◌*◌, length};
ghost use Rattle.definitions.specs.Octets.{encoded};
ghost use Rattle.definitions.specs.Promises.{Adds};
ghost use Rattle.parameters.specs.Answers.{set_from};
ghost use Rattle.parameters.specs.Refusals.{number_in};
ghost use Rattle.addition.specs.Sums.{Summands, coefficient_sums};

use parameters::Parameters;
use parameters::refusals::Refusal;

// So many coefficients. While three more follow, four octets are read and written at once; those past a sum's own are written over by the
// next. The last few are added one by one.
fn add_by<const QLEN: usize>(a: &[u8], b: &[u8], count: usize, q: u32, sum: &mut [u8])
    requires { (Summands q QLEN count a.now b.now) × (length sum.old ≡ count * QLEN) }
    ensures { sum.new ≡ encoded QLEN (coefficient_sums q QLEN count a.now b.now) }
{
    let wide = count.saturating_sub(3);
    for m in 0..wide {
        let at = m * QLEN;
        let x = decoding::wide_number(a, at, QLEN);
        let y = decoding::wide_number(b, at, QLEN);
        encoding::store(sum, at, 4, ring::sum(x, y, q));
    }
    for m in wide..count {
        let at = m * QLEN;
        let x = decoding::number(a, at, QLEN);
        let y = decoding::number(b, at, QLEN);
        encoding::store(sum, at, QLEN, ring::sum(x, y, q));
    }
}

// One loop for each qlen, by a constant.
fn add_octets(a: &[u8], b: &[u8], count: usize, qlen: usize, q: u32, sum: &mut [u8])
    requires { (Summands q qlen count a.now b.now) × (length sum.old ≡ count * qlen) }
    ensures { sum.new ≡ encoded qlen (coefficient_sums q qlen count a.now b.now) }
{
    match qlen {
        1 => add_by::<1>(a, b, count, q, sum),
        2 => add_by::<2>(a, b, count, q, sum),
        3 => add_by::<3>(a, b, count, q, sum),
        _ => add_by::<4>(a, b, count, q, sum),
    }
}

// The sum of two ciphertexts of an accepted set.
pub fn add(p: Parameters, a: &[u8], b: &[u8], sum: &mut [u8]) -> Result<(), Refusal>
    ensures { Adds (set_from p) a b sum (number_in result) }
{
    if !lengths::add_exact(p, a.len(), b.len(), sum.len()) {
        return Err(Refusal::Length);
    }
    let q = p.set.q;
    let qlen = lengths::octets_of_coefficient(q);
    judging::judge(a, qlen, q)?;
    judging::judge(b, qlen, q)?;
    add_octets(a, b, sum.len() / qlen, qlen, q, sum);
    Ok(())
}
