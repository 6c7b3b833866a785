// Draws from random octets (01, "Draws from lent random octets", and 02, Q-1 and Q-3): numbers below q, elements of a secret, and noise.
// A run of draws is refused where the octets end before its last draw is complete. The contracts cite definitions/specs/Draws.antt.
#![tactic(auto)]

ghost use Rattle.std.specs.Prelude.{◌≡◌, ◌∷◌, [], ◌-◌, ◌≤◌, ◌<◌, ◌^◌, length, take};
ghost use Rattle.definitions.specs.Parameters.{bit_length, small_length};
ghost use Rattle.parameters.specs.Numbers.{numbers_from};
ghost use Rattle.definitions.specs.Draws.{draws_below, small_drawn, secret_draws, noise_drawn};
ghost use Rattle.draws.specs.Runs.{said, drawn_answer};

use parameters::SetNumbers;
use parameters::refusals::Refusal;

// A run of draws: the groups that it took, and how many of them it dropped.
#[derive(Clone, Copy)]
pub struct Run {
    pub groups: usize,
    pub dropped: usize,
}

// As many ones as q has bits: a number and this is the number modulo 2 to the bit length of q.
fn group_mask(q: u32) -> u32
    requires { (0 < q) × (q < 2 ^ 31) }
    ensures { result ≡ 2 ^ bit_length q - 1 }
{
    (1u32 << lengths::bit_length(q)) - 1
}

// As many draws below q as there are words: a group of q or more is dropped and the next is taken. With one word it is a single draw.
// Where the octets end first, the words may hold anything.
pub fn draw_below(random: &[u8], q: u32, words: &mut [u32]) -> Result<Run, Refusal>
    requires { (0 < q) × (q < 2 ^ 31) }
    ensures { said result words.new ≡ drawn_answer (draws_below q (length words.old) random.now) }
{
    let width = lengths::octets_of_coefficient(q);
    let mask = group_mask(q);
    let mut at: usize = 0;
    let mut groups: usize = 0;
    let mut dropped: usize = 0;
    // kept as a while: i tells afterwards whether the octets ended
    let mut i: usize = 0;
    'coefficients: while i < words.len() {
        let value = loop {
            if random.len() - at < width {
                break 'coefficients;
            }
            let x = decoding::number(random, at, width) & mask;
            at += width;
            groups += 1;
            if x < q {
                break x;
            }
            dropped += 1;
        };
        words[i] = value;
        i += 1;
    }
    if i < words.len() {
        return Err(Refusal::Exhausted);
    }
    Ok(Run { groups, dropped })
}

// A small element packed in the first of the octets.
fn draw_small(random: &[u8], set: SetNumbers, words: &mut [u32])
    requires { (small_length (numbers_from set) ≤ length random.now) × (length words.old ≡ set.n) }
    ensures { words.new ≡ small_drawn (numbers_from set) (take (small_length (numbers_from set)) random.now) }
{
    let octets = &random[..lengths::small_length(set)];
    unpacking::unpack(octets, parameters::bits(set.l), words);
}

// A single draw of an element of a secret: one whose coefficient of t^(n - 1) is zero is dropped whole and the next octets are taken.
// Where the octets end first, the words may hold anything.
pub fn draw_secret(random: &[u8], set: SetNumbers, words: &mut [u32]) -> Result<Run, Refusal>
    requires { (0 < set.n) × (0 < small_length (numbers_from set)) × (length words.old ≡ set.n) }
    ensures { said result (words.new ∷ []) ≡ drawn_answer (secret_draws (numbers_from set) 1 random.now) }
{
    let one = lengths::small_length(set);
    let top = (set.n - 1) as usize;
    for k in 0..random.len() / one {
        draw_small(&random[k * one..], set, words);
        if words[top] != 0 {
            return Ok(Run {
                groups: k + 1,
                dropped: k,
            });
        }
    }
    Err(Refusal::Exhausted)
}

// The draw of a noise element, from the first of the octets.
#[tactic(auto, unfolding(definitions::specs::Draws::noise_drawn))]
pub fn draw_noise(random: &[u8], set: SetNumbers, words: &mut [u32])
    requires { (small_length (numbers_from set) ≤ length random.now) × (length words.old ≡ set.n) }
    ensures { words.new ≡ noise_drawn (numbers_from set) random.now }
{
    draw_small(random, set, words);
}
