// Coefficients to octets: qlen octets each, least significant first (01, "Ring, monomials, octets"). The contracts cite the definitions'
// octets_of and encoded. The loops of `encode_by` are written once, with qlen as a const parameter, so that the compiler makes them for each
// qlen. Two coefficients are written as eight octets where there is room for them, and the last few one by one. Nothing is refused: callers
// have compared the lengths and judged the coefficients.
#![tactic(auto)]

ghost use Rattle.std.specs.Prelude.{◌≡◌, ◌++◌, ◌+◌, ◌*◌, ◌%◌, ◌^◌, ◌≤◌, length, take, drop, get_or};
ghost use Rattle.definitions.specs.Octets.{octets_of, encoded};

// The first octets of a number, as many as LEN, from a place on.
fn store_by<const LEN: usize>(octets: &mut [u8], at: usize, x: u32)
    requires { (LEN ≤ 4) × (at + LEN ≤ length octets.old) }
    ensures { octets.new ≡ take at octets.old ++ (octets_of LEN x ++ drop (at + LEN) octets.old) }
{
    octets[at..at + LEN].copy_from_slice(&x.to_le_bytes()[..LEN]);
}

// Up to four octets of a number, from a place on. Each count has a copy of its own: one over any count is a call of memcpy.
pub fn store(octets: &mut [u8], at: usize, len: usize, x: u32)
    requires { (len ≤ 4) × (at + len ≤ length octets.old) }
    ensures { octets.new ≡ take at octets.old ++ (octets_of len x ++ drop (at + len) octets.old) }
{
    match len {
        0 => store_by::<0>(octets, at, x),
        1 => store_by::<1>(octets, at, x),
        2 => store_by::<2>(octets, at, x),
        3 => store_by::<3>(octets, at, x),
        _ => store_by::<4>(octets, at, x),
    }
}

// Eight octets of a number of 64 bits, from a place on.
fn store_eight(octets: &mut [u8], at: usize, x: u64)
    requires { at + 8 ≤ length octets.old }
    ensures { octets.new ≡ take at octets.old ++ (octets_of 8 x ++ drop (at + 8) octets.old) }
{
    octets[at..at + 8].copy_from_slice(&x.to_le_bytes());
}

// The number whose first octets, qlen for each, are those of two words.
fn pair(words: &[u32], m: usize, qlen: usize) -> u64
    requires { (1 ≤ qlen) × (qlen ≤ 4) × (m + 2 ≤ length words.now) }
    ensures { result ≡ get_or words.now m 0 % 256 ^ qlen + 256 ^ qlen * get_or words.now (m + 1) 0 }
{
    let weight: u64 = 1 << (8 * qlen);
    (words[m] as u64) % weight + weight * (words[m + 1] as u64)
}

// Two words at a time, stored as eight octets at once; those past the two words' own are written over later. The last words are stored one by
// one.
fn encode_by<const QLEN: usize>(words: &[u32], octets: &mut [u8])
    requires { (1 ≤ QLEN) × (QLEN ≤ 4) × (length octets.old ≡ length words.now * QLEN) }
    ensures { octets.new ≡ encoded QLEN words.now }
{
    let pairs = words.len().saturating_sub(6) / 2;
    for j in 0..pairs {
        store_eight(octets, 2 * j * QLEN, pair(words, 2 * j, QLEN));
    }
    for m in 2 * pairs..words.len() {
        store(octets, m * QLEN, QLEN, words[m]);
    }
}

// The octets of words.
pub fn encode(words: &[u32], qlen: usize, octets: &mut [u8])
    requires { (1 ≤ qlen) × (qlen ≤ 4) × (length octets.old ≡ length words.now * qlen) }
    ensures { octets.new ≡ encoded qlen words.now }
{
    match qlen {
        1 => encode_by::<1>(words, octets),
        2 => encode_by::<2>(words, octets),
        3 => encode_by::<3>(words, octets),
        _ => encode_by::<4>(words, octets),
    }
}
