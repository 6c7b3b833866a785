// Small elements and messages (01, "Ring, monomials, octets"): from octets back to coefficients, by groups that fill at most 32 bits: 32
// coefficients of 1 bit, 16 of 2, 8 of 3 or of 4. A first pass puts a group's number x, and x shifted by b, 2 b and 3 b bits, into the
// group's first four words; a second pass makes rows of four coefficients of them, each row shifted by 4 b bits more. Whole rows are shifted
// alike, so the compiler shifts four words at once. A list that ends early counts as going on with zeros, so the lengths are free; unused
// bits are not looked at, and nothing is refused. The contract cites the definitions' unpacked, those of the steps specs/Lanes.antt. The loops
// over groups are called with b as a const parameter, so that the compiler makes them for each b.
#![tactic(auto)]

ghost use Rattle.std.specs.Prelude.{◌≡◌, ◌++◌, ℕ, ◌+◌, ◌*◌, ◌/◌, ◌≤◌, ◌<◌, length, take, drop};
ghost use Rattle.definitions.specs.Octets.{number_of, unpacked};
ghost use Rattle.packing.specs.Fields.{fields_of};
ghost use Rattle.unpacking.specs.Lanes.{lanes_of, rows_of, groups_of};

// Coefficients from a number, as many as there are words.
fn spread(words: &mut [u32], b: usize, x: u32)
    requires { (1 ≤ b) × (b ≤ 4) × (length words.old * b ≤ 32) }
    ensures { words.new ≡ fields_of b (length words.old) x }
{
    let modulus: u32 = 1 << b;
    for (k, word) in words.iter_mut().enumerate() {
        *word = (x >> (k * b)) % modulus;
    }
}

// A number and its shifts by b, 2 b and 3 b bits, in the first four words.
fn place(words: &mut [u32], b: usize, x: u32)
    requires { (1 ≤ b) × (b ≤ 4) × (4 ≤ length words.old) }
    ensures { words.new ≡ lanes_of b x ++ drop 4 words.old }
{
    words[0] = x;
    words[1] = x >> b;
    words[2] = x >> (2 * b);
    words[3] = x >> (3 * b);
}

// Rows of four coefficients from the first four words, which they are written over.
fn spread_rows(words: &mut [u32], rows: usize, b: usize)
    requires { (1 ≤ b) × (b ≤ 4) × (1 ≤ rows) × (rows * 4 * b ≤ 32) × (rows * 4 ≤ length words.old) }
    ensures { words.new ≡ rows_of b rows (take 4 words.old) ++ drop (rows * 4) words.old }
{
    let l: u32 = 1 << b;
    let first = words[0];
    let second = words[1];
    let third = words[2];
    let fourth = words[3];
    for j in 0..rows {
        let shift = j * 4 * b;
        let row = j * 4;
        words[row] = (first >> shift) % l;
        words[row + 1] = (second >> shift) % l;
        words[row + 2] = (third >> shift) % l;
        words[row + 3] = (fourth >> shift) % l;
    }
}

// The first pass: each group's number and its shifts, in the group's first four words.
fn place_groups(octets: &[u8], b: usize, many: usize, groups: usize, words: &mut [u32])
    requires { (1 ≤ b) × (1 ≤ many) × (many * b ≤ 4) × (groups * (many * b) ≤ length octets.now) × (groups * (many * 8) ≤ length words.old) }
    ensures { (g : ℕ) → g < groups → take 4 (drop (g * (many * 8)) words.new) ≡ lanes_of b (number_of (take (many * b) (drop (g * (many * b)) octets.now))) }
{
    for g in 0..groups {
        place(
            &mut words[g * (many * 8)..],
            b,
            decoding::number(octets, g * (many * b), many * b),
        );
    }
}

// The second pass: the rows of each group, from its first four words.
fn spread_groups(words: &mut [u32], b: usize, many: usize, groups: usize)
    requires { (1 ≤ b) × (1 ≤ many) × (many * b ≤ 4) × (groups * (many * 8) ≤ length words.old) }
    ensures { take (groups * (many * 8)) words.new ≡ groups_of b many groups words.old }
{
    for g in 0..groups {
        spread_rows(&mut words[g * (many * 8)..], many * 2, b);
    }
}

// Both passes, over groups of 4 / B times 8 coefficients.
fn unpack_groups_by<const B: usize>(octets: &[u8], groups: usize, words: &mut [u32])
    requires { (1 ≤ B) × (B ≤ 4) × (groups * (4 / B * B) ≤ length octets.now) × (groups * (4 / B * 8) ≤ length words.old) }
    ensures { take (groups * (4 / B * 8)) words.new ≡ unpacked B (groups * (4 / B * 8)) octets.now }
{
    place_groups(octets, B, 4 / B, groups, words);
    spread_groups(words, B, 4 / B, groups);
}

// The first groups of 32 bits, or of 24 where b is 3.
fn unpack_groups(octets: &[u8], b: usize, groups: usize, words: &mut [u32])
    requires { (1 ≤ b) × (b ≤ 4) × (groups * (4 / b * b) ≤ length octets.now) × (groups * (4 / b * 8) ≤ length words.old) }
    ensures { take (groups * (4 / b * 8)) words.new ≡ unpacked b (groups * (4 / b * 8)) octets.now }
{
    match b {
        1 => unpack_groups_by::<1>(octets, groups, words),
        2 => unpack_groups_by::<2>(octets, groups, words),
        3 => unpack_groups_by::<3>(octets, groups, words),
        _ => unpack_groups_by::<4>(octets, groups, words),
    }
}

// The coefficients of octets, as words.
pub fn unpack(octets: &[u8], b: u32, words: &mut [u32])
    requires { (1 ≤ b) × (b ≤ 4) }
    ensures { words.new ≡ unpacked b (length words.old) octets.now }
{
    let width = b as usize;
    let many = 4 / width;
    let size = many * 8;
    let len = many * width;
    let groups = (words.len() / size).min(octets.len() / len);
    unpack_groups(octets, width, groups, words);
    let at = groups * size;
    let from = groups * len;
    let count = (words.len() - at).min(size);
    let rest = (octets.len() - from).min(len);
    let end = at + count;
    spread(
        &mut words[at..end],
        width,
        decoding::number(octets, from, rest),
    );
    words[end..].fill(0);
}
