// All that is drawn for keys (01, "Draws from lent random octets": key making; 02, Q-1, Q-3 and Q-7): u_x, then u_y, each until it has degree n - 1,
// then the elements of every term but the constant, and in edition 2 the constant's, which is thrown away.
//
// The work words have their exact length. u_x and u_y stand in the first two parts, the terms behind them, and what is drawn
// for the constant behind these: with dX 2 the work words are then full. Where the random octets end first that is said, and the words may hold
// anything. What is said is the definitions' answer after the length test.
#![tactic(auto)]

ghost use Rattle.std.specs.Prelude.{◌≡◌, ◌∷◌, [], ◌+◌, ◌*◌, ◌≤◌, length, take, OnOk};
ghost use Rattle.std.proofs.Math.Seq.{slice};
ghost use Rattle.definitions.specs.Draws.{draws_below, secret_draws};
ghost use Rattle.definitions.specs.Calls.{half_draws, key_coefficients};
ghost use Rattle.parameters.specs.Answers.{set_from};
ghost use Rattle.draws.specs.Runs.{said, drawn_answer};
ghost use Rattle.key_draws.specs.Keys.{terms_end, drawn_end, words_halves, words_drawn, keys_said, keys_drawn, KeyWords};

use draws::Run;
use parameters::Parameters;
use parameters::refusals::Refusal;

// What is drawn for keys: the octets used, and how many groups and elements were dropped.
#[derive(Clone, Copy)]
pub struct KeyRun {
    pub octets: usize,
    pub groups: usize,
    pub elements: usize,
}

// An element of the secret from the octets, into the work words at a place on.
fn draw_half(p: Parameters, random: &[u8], work: &mut [u32], at: usize) -> Result<Run, Refusal>
    requires { at + p.set.n ≤ length work.old }
    ensures drawn { said result (slice at (at + p.set.n) work.new ∷ []) ≡ drawn_answer (secret_draws (set_from p) 1 random.now) }
    ensures work_kept { take at work.new ≡ take at work.old }
{
    let stop = at + p.set.n as usize;
    draws::draw_secret(random, p.set, &mut work[at..stop])
}

// u_x, then u_y from the octets after it, into the first two parts of the work words.
fn draw_halves(p: Parameters, random: &[u8], work: &mut [u32]) -> Result<Run, Refusal>
    requires { length work.old ≡ 8 * p.set.n }
    ensures { said result (words_halves (set_from p) work.new) ≡ drawn_answer (half_draws (set_from p) random.now) }
{
    let n = p.set.n as usize;
    let x = draw_half(p, random, work, 0)?;
    let start = lengths::small_length(p.set) * x.groups;
    let y = draw_half(p, &random[start..], work, n)?;
    Ok(Run {
        groups: x.groups + y.groups,
        dropped: x.dropped + y.dropped,
    })
}

// Where the words of the terms end: all terms but the constant, behind the first two parts.
pub fn terms_end(p: Parameters) -> usize
    ensures { (result ≡ terms_end (set_from p)) × (result + p.set.n ≤ 8 * p.set.n) }
{
    let n = p.set.n as usize;
    n + n + (monomials::monomial_count(p.set.dx) - 1) * n
}

// Where the words of all that is drawn end: in edition 2 the constant's stand behind those of the terms.
#[tactic(auto, using(crate::proofs::Words::elements_drawn))]
fn drawn_end(p: Parameters) -> usize
    ensures { (result ≡ drawn_end (set_from p)) × (result ≤ 8 * p.set.n) }
{
    let end = terms_end(p);
    // a number, as the C interface has it
    if p.set.edition == 2 {
        end + p.set.n as usize
    } else {
        end
    }
}

// The elements of every term but the constant, and in edition 2 the constant's, from the octets after the secret's, behind the first two parts of
// the work words.
fn draw_terms(p: Parameters, random: &[u8], work: &mut [u32]) -> Result<Run, Refusal>
    requires { length work.old ≡ 8 * p.set.n }
    ensures drawn { said result (words_drawn (set_from p) work.new) ≡ drawn_answer (draws_below p.set.q (key_coefficients (set_from p)) random.now) }
    ensures work_kept { take (p.set.n + p.set.n) work.new ≡ take (p.set.n + p.set.n) work.old }
{
    let n = p.set.n as usize;
    let at = n + n;
    let stop = drawn_end(p);
    draws::draw_below(random, p.set.q, &mut work[at..stop])
}

// All that is drawn for keys, into the work words.
pub fn draw_keys(p: Parameters, random: &[u8], work: &mut [u32]) -> Result<KeyRun, Refusal>
    requires { length work.old ≡ 8 * p.set.n }
    ensures drawn { keys_said (set_from p) result work.new ≡ keys_drawn (set_from p) random.now }
    ensures ready { OnOk result (KeyWords (set_from p) work.new) }
{
    let secret = draw_halves(p, random, work)?;
    let start = lengths::small_length(p.set) * secret.groups;
    let terms = draw_terms(p, &random[start..], work)?;
    let taken = lengths::octets_of_coefficient(p.set.q) * terms.groups;
    Ok(KeyRun {
        octets: start + taken,
        groups: terms.dropped,
        elements: secret.dropped,
    })
}
