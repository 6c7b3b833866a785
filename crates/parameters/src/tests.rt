// The six tests of a set, one function each.
ghost use Rattle.std.specs.Prelude.{◌≡◌, true};
ghost use Rattle.definitions.specs.Parameters.{one_or_two, range_fits, ring_fits, degree_fits, modulus_fits, message_fits, edition_fits};
ghost use Rattle.parameters.specs.Answers.{numbers_from};

use super::{Parameters, SetNumbers, bits, noise};

#[tactic(auto, unfolding(definitions::specs::Parameters::range_fits))]
pub fn range_fits(set: SetNumbers) -> bool
    ensures { result ≡ range_fits (numbers_from set) }
{
    matches!(set.l, Parameters::L_LEAST | 4 | 8 | Parameters::L_MOST)
}

#[tactic(auto, unfolding(definitions::specs::Parameters::ring_fits))]
pub fn ring_fits(set: SetNumbers) -> bool
    ensures { result ≡ ring_fits (numbers_from set) }
{
    (Parameters::N_LEAST..=Parameters::N_MOST).contains(&set.n)
}

pub fn degree_fits(set: SetNumbers) -> bool
    ensures { result ≡ degree_fits (numbers_from set) }
{
    is_degree(set.dx) & is_degree(set.dr)
}

fn is_degree(d: u32) -> bool
    ensures { result ≡ one_or_two d }
{
    (Parameters::DEGREE_LEAST..=Parameters::DEGREE_MOST).contains(&d)
}

// The bound is compared up to 2^31, which no q reaches.
pub fn modulus_fits(set: SetNumbers) -> bool
    requires range { range_fits (numbers_from set) ≡ true }
    requires ring { ring_fits (numbers_from set) ≡ true }
    requires degrees { degree_fits (numbers_from set) ≡ true }
    ensures { result ≡ modulus_fits (numbers_from set) }
{
    (set.q <= Parameters::Q_MOST) & (noise::capped_bound(set) < set.q)
}

pub fn message_fits(set: SetNumbers) -> bool
    ensures { result ≡ message_fits (numbers_from set) }
{
    let b = bits(set.l);
    ((set.mlen as u64) <= (set.n as u64) * (b as u64)) & (set.mlen % b == 0)
}

#[tactic(auto, unfolding(definitions::specs::Parameters::edition_fits))]
pub fn edition_fits(set: SetNumbers) -> bool
    ensures { result ≡ edition_fits (numbers_from set) }
{
    (Parameters::EDITION_LEAST..=Parameters::EDITION_MOST).contains(&set.edition)
}
