// Octets to coefficients: qlen octets each, least significant first (01, "Ring, monomials, octets"). The contracts cite the definitions'
// number_of and decoded, and specs/Elements.antt. The loops of `decode_by` are written once, with qlen as a const parameter, so that the
// compiler makes them for each qlen. Four octets are read at once where there is room for them, and the last few coefficients one by one.
// Nothing is refused: callers have compared the lengths and judged the coefficients.
#![tactic(auto)]

ghost use Rattle.std.specs.Prelude.{◌≡◌, ◌+◌, ◌*◌, ◌≤◌, ◌<◌, length, take, drop};
ghost use Rattle.definitions.specs.Sequences.{tabulate};
ghost use Rattle.definitions.specs.Octets.{number_of, decoded};
ghost use Rattle.definitions.specs.Calls.{polynomial_in};
ghost use Rattle.ring.specs.Work.{written};
ghost use Rattle.decoding.specs.Elements.{Sizes};

// The number of four octets, from a place on.
fn four(octets: &[u8], at: usize) -> u32
    requires { at + 4 ≤ length octets.now }
    ensures { result ≡ number_of (take 4 (drop at octets.now)) }
{
    u32::from_le_bytes([octets[at], octets[at + 1], octets[at + 2], octets[at + 3]])
}

// The number of up to four octets, from a place on.
pub fn number(octets: &[u8], at: usize, len: usize) -> u32
    requires { (len ≤ 4) × (at + len ≤ length octets.now) }
    ensures { result ≡ number_of (take len (drop at octets.now)) }
{
    match len {
        0 => 0,
        1 => octets[at] as u32,
        2 => u32::from_le_bytes([octets[at], octets[at + 1], 0, 0]),
        3 => u32::from_le_bytes([octets[at], octets[at + 1], octets[at + 2], 0]),
        _ => four(octets, at),
    }
}

// The number of one to four octets: four are read at once, and the first `len` kept.
pub fn wide_number(octets: &[u8], at: usize, len: usize) -> u32
    requires { (1 ≤ len) × (len ≤ 4) × (at + 4 ≤ length octets.now) }
    ensures { result ≡ number_of (take len (drop at octets.now)) }
{
    let x = four(octets, at);
    if len == 4 {
        return x;
    }
    x % (1 << (8 * len))
}

// While three coefficients more follow, four octets can be read at once; the last three are read by their own octets.
fn decode_by<const QLEN: usize>(octets: &[u8], words: &mut [u32])
    requires { (1 ≤ QLEN) × (QLEN ≤ 4) × (length octets.now ≡ length words.old * QLEN) }
    ensures { words.new ≡ decoded QLEN (length words.old) octets.now }
{
    let last = words.len().saturating_sub(3);
    for m in 0..last {
        words[m] = wide_number(octets, m * QLEN, QLEN);
    }
    for k in last..words.len() {
        words[k] = number(octets, k * QLEN, QLEN);
    }
}

// The coefficients of octets, as words.
pub fn decode(octets: &[u8], qlen: usize, words: &mut [u32])
    requires { (1 ≤ qlen) × (qlen ≤ 4) × (length octets.now ≡ length words.old * qlen) }
    ensures { words.new ≡ decoded qlen (length words.old) octets.now }
{
    match qlen {
        1 => decode_by::<1>(octets, words),
        2 => decode_by::<2>(octets, words),
        3 => decode_by::<3>(octets, words),
        _ => decode_by::<4>(octets, words),
    }
}

// The element at a place of the octets, into a part of the work words.
pub fn element(octets: &[u8], element: usize, n: usize, qlen: usize, work: &mut [u32], at: usize)
    requires { Sizes n qlen work.old × (element < 45) × (element * n * qlen + n * qlen ≤ length octets.now) × (at + n ≤ length work.old) }
    ensures { work.new ≡ written at (tabulate n (polynomial_in n qlen octets.now element)) work.old }
{
    let from = element * n * qlen;
    let end = from + n * qlen;
    let stop = at + n;
    decode(&octets[from..end], qlen, &mut work[at..stop]);
}
