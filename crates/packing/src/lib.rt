// Small elements and messages (01, "Ring, monomials, octets"): coefficient i takes b bits, starting at bit i × b of the octets.
// 32 bits hold 32 coefficients of 1 bit, 16 of 2, 8 of 3 or of 4; the loops go by such groups, and a last group may be shorter. A
// list that ends early counts as going on with zeros, so the lengths are free. Unused bits are judged by `padding`, which refuses,
// and written as zero. The contracts cite the definitions' packed and padding_clear; those of the steps also specs/Fields.antt and
// specs/Lanes.antt. A group is added up in four lanes, of every fourth coefficient each, since the compiler then adds whole rows of four at
// once. `pack_groups_by` has b as a const parameter, so that the compiler makes the loops over groups for each b.
#![tactic(auto)]

ghost use Rattle.std.specs.Prelude.{◌≡◌, true, ◌++◌, ℕ, ◌+◌, ◌*◌, ◌/◌, ◌^◌, ◌≤◌, ◌<◌, length, take, drop};
ghost use Rattle.definitions.specs.Sequences.{tabulate};
ghost use Rattle.definitions.specs.Octets.{packed, encoded, coefficients_fit};
ghost use Rattle.parameters.specs.Refusals.{number_in};
ghost use Rattle.packing.specs.Fields.{value_in, padding_number};
ghost use Rattle.packing.specs.Lanes.{lanes_in, lane_number, group_number};

use parameters::refusals::Refusal;

// Refused where a bit from bit `used` on is not zero.
pub fn padding(octets: &[u8], used: usize) -> Result<(), Refusal>
    ensures { number_in result ≡ padding_number used octets.now }
{
    let mut shift = used % 8;
    for i in used / 8..octets.len() {
        if octets[i] >> shift != 0 {
            return Err(Refusal::Padding);
        }
        shift = 0;
    }
    Ok(())
}

// The number of some coefficients.
fn gather(words: &[u32], b: usize) -> u32
    requires { (1 ≤ b) × (length words.now * b ≤ 32) × (coefficients_fit (2 ^ b) words.now ≡ true) }
    ensures { result ≡ value_in b words.now }
{
    let mut x: u32 = 0;
    for (k, word) in words.iter().enumerate() {
        x += *word << (k * b);
    }
    x
}

// The four lanes of a group: lane k adds up every fourth coefficient from coefficient k on, 4 b bits each.
fn collect(words: &[u32], rows: usize, b: usize, lanes: &mut [u32])
    requires { (1 ≤ b) × (1 ≤ rows) × (rows * 4 * b ≤ 32) × (rows * 4 ≤ length words.now) × (4 ≤ length lanes.old) × (coefficients_fit (2 ^ b) words.now ≡ true) }
    ensures { lanes.new ≡ lanes_in b rows words.now ++ drop 4 lanes.old }
{
    let mut first: u32 = 0;
    let mut second: u32 = 0;
    let mut third: u32 = 0;
    let mut fourth: u32 = 0;
    for j in 0..rows {
        let shift = j * 4 * b;
        let row = j * 4;
        first += words[row] << shift;
        second += words[row + 1] << shift;
        third += words[row + 2] << shift;
        fourth += words[row + 3] << shift;
    }
    lanes[0] = first;
    lanes[1] = second;
    lanes[2] = third;
    lanes[3] = fourth;
}

// The number of a group, from its four lanes.
fn join(lanes: &[u32], b: usize) -> u32
    requires { (b ≤ 4) × (4 ≤ length lanes.now) × (value_in b (take 4 lanes.now) < 4294967296) }
    ensures { result ≡ value_in b (take 4 lanes.now) }
{
    lanes[0] + (lanes[1] << b) + (lanes[2] << (2 * b)) + (lanes[3] << (3 * b))
}

// The four lanes of each of some groups.
fn collect_groups(
    words: &[u32],
    b: usize,
    many: usize,
    start: usize,
    some: usize,
    lanes: &mut [u32],
)
    requires { (1 ≤ b) × (1 ≤ many) × (many * b ≤ 4) × ((start + some) * (many * 8) ≤ length words.now) × (some * 4 ≤ length lanes.old) × (coefficients_fit (2 ^ b) words.now ≡ true) }
    ensures { (g : ℕ) → g < some → lane_number b lanes.new g ≡ group_number b (many * 8) words.now (start + g) }
{
    for g in 0..some {
        collect(
            &words[(start + g) * (many * 8)..],
            many * 2,
            b,
            &mut lanes[g * 4..],
        );
    }
}

// The octets of each of some groups, from its four lanes.
fn join_groups(lanes: &[u32], b: usize, many: usize, start: usize, some: usize, octets: &mut [u8])
    requires sizes { (1 ≤ b) × (1 ≤ many) × (many * b ≤ 4) × ((start + some) * (many * b) ≤ length octets.old) × (some * 4 ≤ length lanes.now) }
    requires lanes_fit { (g : ℕ) → g < some → lane_number b lanes.now g < 4294967296 }
    ensures { take ((start + some) * (many * b)) octets.new ≡ take (start * (many * b)) octets.old ++ encoded (many * b) (tabulate some (lane_number b lanes.now)) }
{
    for g in 0..some {
        encoding::store(
            octets,
            (start + g) * (many * b),
            many * b,
            join(&lanes[g * 4..], b),
        );
    }
}

// At most 16 groups at a time, all their lanes before all their octets, so that the compiler adds whole rows of four.
fn pack_groups_by<const B: usize>(words: &[u32], groups: usize, octets: &mut [u8])
    requires { (1 ≤ B) × (B ≤ 4) × (groups * (4 / B * B) ≤ length octets.old) × (groups * (4 / B * 8) ≤ length words.now) × (coefficients_fit (2 ^ B) words.now ≡ true) }
    ensures { take (groups * (4 / B * B)) octets.new ≡ packed B (groups * (4 / B * B)) words.now }
{
    let many = 4 / B;
    let mut lanes = [0u32; 64];
    let mut g = 0;
    // kept as a while: a turn takes up to 16 groups
    while g < groups {
        let some = (groups - g).min(16);
        collect_groups(words, B, many, g, some, &mut lanes);
        join_groups(&lanes, B, many, g, some, octets);
        g += some;
    }
}

// The first groups, each of 4 / b times 8 coefficients.
fn pack_groups(words: &[u32], b: usize, groups: usize, octets: &mut [u8])
    requires { (1 ≤ b) × (b ≤ 4) × (groups * (4 / b * b) ≤ length octets.old) × (groups * (4 / b * 8) ≤ length words.now) × (coefficients_fit (2 ^ b) words.now ≡ true) }
    ensures { take (groups * (4 / b * b)) octets.new ≡ packed b (groups * (4 / b * b)) words.now }
{
    match b {
        1 => pack_groups_by::<1>(words, groups, octets),
        2 => pack_groups_by::<2>(words, groups, octets),
        3 => pack_groups_by::<3>(words, groups, octets),
        _ => pack_groups_by::<4>(words, groups, octets),
    }
}

// The octets of words below 2^b.
pub fn pack(words: &[u32], b: u32, octets: &mut [u8])
    requires { (1 ≤ b) × (b ≤ 4) × (coefficients_fit (2 ^ b) words.now ≡ true) }
    ensures { octets.new ≡ packed b (length octets.old) words.now }
{
    let width = b as usize;
    let many = 4 / width;
    let size = many * 8;
    let len = many * width;
    let groups = (octets.len() / len).min(words.len() / size);
    pack_groups(words, width, groups, octets);
    let at = groups * size;
    let from = groups * len;
    let count = (words.len() - at).min(size);
    let rest = (octets.len() - from).min(len);
    encoding::store(octets, from, rest, gather(&words[at..at + count], width));
    octets[from + rest..].fill(0);
}
