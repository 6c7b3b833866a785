// Whether given coefficients fit (01, "Refusal table", number 8): octets and words are judged, and refused where one is not below the limit.
// `read` takes each coefficient's value as it judges it, for callers that may write before a refusal. A judge writes nothing: it reads several
// coefficients at a time, so that they are compared at once, refuses at the first of these where one is too large, and reads the octets left
// one by one; small words it reads all at once. The contracts cite specs/Reading.antt and the definitions' coefficient_at and decoded. The
// loops over octets have qlen as a const parameter, so that each qlen has a loop of its own.
#![tactic(auto)]

ghost use Rattle.std.specs.Prelude.{◌≡◌, ◌+◌, ◌*◌, ◌/◌, ◌^◌, ◌≤◌, length, OnOk};
ghost use Rattle.definitions.specs.Sequences.{tabulate};
ghost use Rattle.definitions.specs.Octets.{coefficient_at, decoded, coefficients_fit};
ghost use Rattle.parameters.specs.Refusals.{number_in};
ghost use Rattle.judging.specs.Reading.{reading_as, coefficient_answer, coefficient_number, fit_number};

use parameters::refusals::Refusal;

// The answer of a judge: refused unless all fit.
fn refuse_unless(fit: bool) -> Result<(), Refusal>
    ensures { number_in result ≡ coefficient_number fit }
{
    if fit {
        Ok(())
    } else {
        Err(Refusal::Coefficient)
    }
}

// How many coefficients are judged at once.
const SEVERAL: usize = 64;

// Whether 64 coefficients from place m on are below q, each read as four octets: so many at a time the compiler compares together.
fn several_fit<const QLEN: usize>(octets: &[u8], m: usize, q: u32) -> bool
    requires { (1 ≤ QLEN) × (QLEN ≤ 4) × ((m + 63) * QLEN + 4 ≤ length octets.now) }
    ensures { result ≡ coefficients_fit q (tabulate 64 (λ k. coefficient_at QLEN octets.now (m + k))) }
{
    let mut fit = true;
    for k in 0..SEVERAL {
        fit &= decoding::wide_number(octets, (m + k) * QLEN, QLEN) < q;
    }
    fit
}

// The coefficient at place m; none where the number there is not below q.
fn coefficient_at(octets: &[u8], m: usize, qlen: usize, q: u32) -> Option<u32>
    requires { (1 ≤ qlen) × (qlen ≤ 4) × (m * qlen + qlen ≤ length octets.now) }
    ensures { reading_as result ≡ coefficient_answer q (coefficient_at qlen octets.now m) }
{
    let x = decoding::number(octets, m * qlen, qlen);
    if x < q { Some(x) } else { None }
}

// Refused where a coefficient in the octets is not below q: 64 at a time while so many can be read as four octets each, then one by one.
fn judge_by<const QLEN: usize>(octets: &[u8], q: u32) -> Result<(), Refusal>
    requires { (1 ≤ QLEN) × (QLEN ≤ 4) }
    ensures { number_in result ≡ fit_number q (decoded QLEN (length octets.now / QLEN) octets.now) }
{
    let turns = octets.len().saturating_sub(4 - QLEN) / (SEVERAL * QLEN);
    for turn in 0..turns {
        refuse_unless(several_fit::<QLEN>(octets, turn * SEVERAL, q))?;
    }
    for m in turns * SEVERAL..octets.len() / QLEN {
        let Some(_) = coefficient_at(octets, m, QLEN, q) else {
            return Err(Refusal::Coefficient);
        };
    }
    Ok(())
}

// Refused where a coefficient in the octets is not below q.
pub fn judge(octets: &[u8], qlen: usize, q: u32) -> Result<(), Refusal>
    requires { (1 ≤ qlen) × (qlen ≤ 4) }
    ensures { number_in result ≡ fit_number q (decoded qlen (length octets.now / qlen) octets.now) }
{
    match qlen {
        1 => judge_by::<1>(octets, q),
        2 => judge_by::<2>(octets, q),
        3 => judge_by::<3>(octets, q),
        _ => judge_by::<4>(octets, q),
    }
}

// The coefficients of the octets, into words, up to one that is too large.
fn read_by<const QLEN: usize>(octets: &[u8], q: u32, words: &mut [u32]) -> Result<(), Refusal>
    requires { (1 ≤ QLEN) × (QLEN ≤ 4) × (length words.old * QLEN ≤ length octets.now) }
    ensures judged { number_in result ≡ fit_number q (decoded QLEN (length words.old) octets.now) }
    ensures read { OnOk result (words.new ≡ decoded QLEN (length words.old) octets.now) }
{
    for m in 0..words.len() {
        let Some(x) = coefficient_at(octets, m, QLEN, q) else {
            return Err(Refusal::Coefficient);
        };
        words[m] = x;
    }
    Ok(())
}

// The coefficients of the octets, as words; refused where one of them is not below q.
pub fn read(octets: &[u8], qlen: usize, q: u32, words: &mut [u32]) -> Result<(), Refusal>
    requires { (1 ≤ qlen) × (qlen ≤ 4) × (length words.old * qlen ≤ length octets.now) }
    ensures judged { number_in result ≡ fit_number q (decoded qlen (length words.old) octets.now) }
    ensures read { OnOk result (words.new ≡ decoded qlen (length words.old) octets.now) }
{
    match qlen {
        1 => read_by::<1>(octets, q, words),
        2 => read_by::<2>(octets, q, words),
        3 => read_by::<3>(octets, q, words),
        _ => read_by::<4>(octets, q, words),
    }
}

// Whether all words are below q. The loop stops at none, so that the compiler compares several at once.
fn words_fit(words: &[u32], q: u32) -> bool
    ensures { result ≡ coefficients_fit q words.now }
{
    let mut fit = true;
    for word in words {
        fit &= *word < q;
    }
    fit
}

// How many words are judged at once.
const SEVERAL_WORDS: usize = 32;

// Refused where a word is not below q: 32 at a time, then those left.
pub fn judge_words(words: &[u32], q: u32) -> Result<(), Refusal>
    ensures { number_in result ≡ fit_number q words.now }
{
    let turns = words.len() / SEVERAL_WORDS;
    for turn in 0..turns {
        let from = turn * SEVERAL_WORDS;
        let stop = from + SEVERAL_WORDS;
        refuse_unless(words_fit(&words[from..stop], q))?;
    }
    refuse_unless(words_fit(&words[turns * SEVERAL_WORDS..], q))
}

// Refused where a word is not below 2^b: a number is below it just where its bits are, and so are the bits of all of them together.
pub fn judge_small(words: &[u32], b: u32) -> Result<(), Refusal>
    requires { b ≤ 4 }
    ensures { number_in result ≡ fit_number (2 ^ b) words.now }
{
    let limit: u32 = 1 << b;
    let mut bits: u32 = 0;
    for word in words {
        bits |= *word;
    }
    refuse_unless(bits < limit)
}
