// The product of two short polynomials, row by row (a leaf of Karatsuba's product): row i is a_i × b, shifted by i places, and eight rows
// are added at a time, in 64 bits, or four where no more are left. Where eighty products may pass 2^64, each sum of four is cut at 2^42 into
// a low and a high part. One reduction at the end is enough, and is left to callers of the sums. The words, the places and the bounds stay
// parameters: in a struct that is lent to be written, each clause would read them through it. Nothing is refused: callers keep to 80
// coefficients, each below q and those of b below top. The contracts cite ring's linear, through specs/Rows.antt.
#![tactic(auto)]

ghost use Rattle.std.specs.Prelude.{◌≡◌, ℕ, ◌+◌, ◌*◌, ◌%◌, ◌/◌, ◌<◌, ◌≤◌, length, get_or, replicate};
ghost use Rattle.definitions.specs.Sequences.{tabulate};
ghost use Rattle.definitions.specs.Ring.{InRing, element_of};
ghost use Rattle.ring.specs.Work.{part, written};
ghost use Rattle.ring.specs.Linear.{linear};
ghost use Rattle.rows.specs.Rows.{padded, factors_from, eight_rows, row_sum, Surrounded, Operands, Added, Halves, Leaf, leaf_product};

use reduction::Modulus;

// Where a sum of four products is cut: 2^42.
const CUT: u64 = 4398046511104;

// The largest product of which eighty fit 64 bits: (2^64 - 1) / 80, rounded down.
pub const UNCUT: u64 = 230584300921369395;

// How many rows are added at a time.
const PASS: usize = 8;

// The factors of four rows.
#[derive(Clone, Copy)]
struct Factors {
    a0: u32,
    a1: u32,
    a2: u32,
    a3: u32,
}

// The factor of row i; 0 past the last row.
fn factor(a: &[u32], i: usize) -> u32
    ensures { result ≡ padded (length a.now) (element_of a.now) i }
{
    if i < a.len() { a[i] } else { 0 }
}

// The factors of the rows from i on.
fn factors_from(a: &[u32], i: usize) -> Factors
    requires { i < 100 }
    ensures { result ≡ factors_from (length a.now) (element_of a.now) i }
{
    Factors {
        a0: factor(a, i),
        a1: factor(a, i + 1),
        a2: factor(a, i + 2),
        a3: factor(a, i + 3),
    }
}

// The row: b, between seven zeros and seven more.
fn pad(row: &mut [u64], b: &[u32])
    requires { (length b.now ≤ 80) × (row.old ≡ replicate 96 0) }
    ensures { Surrounded (length b.now) (element_of b.now) row.new }
{
    for k in 0..b.len() {
        row[7 + k] = b[k] as u64;
    }
}

// The sum of four products.
fn products(f: Factors, b0: u64, b1: u64, b2: u64, b3: u64) -> u64
    requires a0_bound { (f.a0 < 2147483648) × (f.a1 < 2147483648) × (f.a2 < 2147483648) × (f.a3 < 2147483648) }
    requires b0_bound { (b0 < 2147483648) × (b1 < 2147483648) × (b2 < 2147483648) × (b3 < 2147483648) }
    ensures { result ≡ f.a0 * b0 + f.a1 * b1 + f.a2 * b2 + f.a3 * b3 }
{
    (f.a0 as u64) * (b0 as u32 as u64)
        + (f.a1 as u64) * (b1 as u32 as u64)
        + (f.a2 as u64) * (b2 as u32 as u64)
        + (f.a3 as u64) * (b3 as u32 as u64)
}

// Four rows: the first is read at k + 3, each next one a place before.
fn row_sum(f: Factors, row: &[u64], k: usize) -> u64
    requires a0_bound { (f.a0 < 2147483648) × (f.a1 < 2147483648) × (f.a2 < 2147483648) × (f.a3 < 2147483648) }
    requires k_in_bounds { (k + 4 ≤ length row.now) × ((j : ℕ) → get_or row.now j 0 < 2147483648) }
    ensures { result ≡ row_sum f row.now k }
{
    products(f, row[k + 3], row[k + 2], row[k + 1], row[k])
}

// Eight rows, from row i on, added at the places that they reach.
fn add_rows(low: &mut [u64], a: &[u32], row: &[u64], i: usize)
    requires operands { Operands a.now row.now × (i < length a.now) × (i + (length a.now + 7) ≤ length low.old) }
    requires sums_fit { (k : ℕ) → get_or low.old k 0 + eight_rows (λ s. s) (length a.now) (element_of a.now) (part row.now 7) i k < 18446744073709551616 }
    ensures { Added (eight_rows (λ s. s) (length a.now) (element_of a.now) (part row.now 7) i) low.old low.new }
{
    let f = factors_from(a, i);
    let g = factors_from(a, i + 4);
    for k in 0..a.len() + 7 {
        low[i + k] += row_sum(f, row, k + 4) + row_sum(g, row, k);
    }
}

// The same where at most four rows are left: the others hold nothing.
fn add_last_rows(low: &mut [u64], a: &[u32], row: &[u64], i: usize)
    requires operands { Operands a.now row.now × (i < length a.now) × (length a.now ≤ i + 4) × (i + (length a.now + 3) ≤ length low.old) }
    requires sums_fit { (k : ℕ) → get_or low.old k 0 + eight_rows (λ s. s) (length a.now) (element_of a.now) (part row.now 7) i k < 18446744073709551616 }
    ensures { Added (eight_rows (λ s. s) (length a.now) (element_of a.now) (part row.now 7) i) low.old low.new }
{
    let f = factors_from(a, i);
    for k in 0..a.len() + 3 {
        low[i + k] += row_sum(f, row, k + 4);
    }
}

// Eight rows with both sums cut.
fn add_cut_rows(low: &mut [u64], high: &mut [u64], a: &[u32], row: &[u64], i: usize)
    requires operands { Operands a.now row.now × (i < length a.now) × (i + (length a.now + 7) ≤ length low.old) × (i + (length a.now + 7) ≤ length high.old) }
    requires sums_fit { ((k : ℕ) → get_or low.old k 0 < 9223372036854775808) × ((k : ℕ) → get_or high.old k 0 < 9223372036854775808) }
    ensures low_added { Added (eight_rows (λ s. s % 4398046511104) (length a.now) (element_of a.now) (part row.now 7) i) low.old low.new }
    ensures high_added { Added (eight_rows (λ s. s / 4398046511104) (length a.now) (element_of a.now) (part row.now 7) i) high.old high.new }
{
    let f = factors_from(a, i);
    let g = factors_from(a, i + 4);
    for k in 0..a.len() + 7 {
        let s = row_sum(f, row, k + 4);
        let t = row_sum(g, row, k);
        low[i + k] += s % CUT + t % CUT;
        high[i + k] += s / CUT + t / CUT;
    }
}

// All rows, eight at a time, to sums that are 0: the product, where it fits a word at each place.
fn all_rows(low: &mut [u64], a: &[u32], row: &[u64])
    requires operands { Operands a.now row.now × (low.old ≡ replicate 168 0) }
    requires sums_fit { (k : ℕ) → linear (length a.now) (element_of a.now) (part row.now 7) k < 18446744073709551616 }
    ensures { (k : ℕ) → get_or low.new k 0 ≡ linear (length a.now) (element_of a.now) (part row.now 7) k }
{
    for i in (0..a.len()).step_by(PASS) {
        if i + 4 < a.len() {
            add_rows(low, a, row, i);
        } else {
            add_last_rows(low, a, row, i);
        }
    }
}

// The same with cut sums: the two halves of the product.
fn all_cut_rows(low: &mut [u64], high: &mut [u64], a: &[u32], row: &[u64])
    requires { Operands a.now row.now × (low.old ≡ replicate 168 0) × (high.old ≡ replicate 168 0) }
    ensures { (k : ℕ) → Halves (linear (length a.now) (element_of a.now) (part row.now 7) k) (get_or low.new k 0) (get_or high.new k 0) }
{
    for i in (0..a.len()).step_by(PASS) {
        add_cut_rows(low, high, a, row, i);
    }
}

// The first n sums, reduced.
fn reduce(product: &mut [u32], low: &[u64], n: usize, modulus: Modulus)
    requires { (n ≤ length product.old) × (n ≤ length low.now) }
    ensures { product.new ≡ written 0 (tabulate n (λ k. get_or low.now k 0 % modulus.q)) product.old }
{
    for k in 0..n {
        product[k] = reduction::remainder(low[k], modulus);
    }
}

// The same of cut sums, put together again with 2^42 modulo q for 2^42.
fn reduce_cut(product: &mut [u32], low: &[u64], high: &[u64], n: usize, modulus: Modulus)
    requires n_in_bounds { (n ≤ length product.old) × (n ≤ length low.now) × (n ≤ length high.now) }
    requires in_ring { InRing 140737488355328 n (element_of low.now) × InRing 134217728 n (element_of high.now) }
    ensures { product.new ≡ written 0 (tabulate n (λ k. (get_or low.now k 0 + 4398046511104 * get_or high.now k 0) % modulus.q)) product.old }
{
    let fold = CUT % (modulus.q as u64);
    for k in 0..n {
        product[k] = reduction::remainder(high[k] * fold + low[k], modulus);
    }
}

// The sums of the rows of two polynomials that stand anywhere in the words, not reduced; q and top are bounds of their coefficients.
pub fn sums(words: &[u32], a: usize, b: usize, m: usize, q: u32, top: u32, low: &mut [u64])
    requires m_bound { (m ≤ 80) × (a + m ≤ length words.now) × (b + m ≤ length words.now) × (low.old ≡ replicate 168 0) × (q * top ≤ 230584300921369395) × (q < 2147483648) × (top ≤ 2147483648) }
    requires in_ring { InRing q m (part words.now a) × InRing top m (part words.now b) }
    ensures { (k : ℕ) → get_or low.new k 0 ≡ linear m (part words.now a) (part words.now b) k }
{
    let mut row = [0u64; 96];
    pad(&mut row, &words[b..b + m]);
    all_rows(low, &words[a..a + m], &row);
}

// The product where eighty products fit a word.
fn multiply_uncut(
    words: &mut [u32],
    a: usize,
    b: usize,
    at: usize,
    m: usize,
    modulus: Modulus,
    top: u32,
)
    requires leaf { Leaf m a b at words.old × (top ≤ modulus.q) × (modulus.q * top ≤ 230584300921369395) }
    requires in_ring { InRing modulus.q m (part words.old a) × InRing top m (part words.old b) }
    ensures { words.new ≡ leaf_product modulus.q m a b at words.old }
{
    let mut low = [0u64; 168];
    sums(words, a, b, m, modulus.q, top, &mut low);
    reduce(&mut words[at..], &low, m + m, modulus);
}

// The product in any case.
fn multiply_cut(words: &mut [u32], a: usize, b: usize, at: usize, m: usize, modulus: Modulus)
    requires leaf { Leaf m a b at words.old }
    requires in_ring { InRing modulus.q m (part words.old a) × InRing modulus.q m (part words.old b) }
    ensures { words.new ≡ leaf_product modulus.q m a b at words.old }
{
    let mut row = [0u64; 96];
    let mut low = [0u64; 168];
    let mut high = [0u64; 168];
    pad(&mut row, &words[b..b + m]);
    all_cut_rows(&mut low, &mut high, &words[a..a + m], &row);
    reduce_cut(&mut words[at..], &low, &high, m + m, modulus);
}

// The product modulo q of the polynomials of m coefficients that stand from a and from b on in the words, to the words from at on; top is
// a bound of the second one's coefficients.
pub fn multiply(
    words: &mut [u32],
    a: usize,
    b: usize,
    at: usize,
    m: usize,
    modulus: Modulus,
    top: u32,
)
    requires leaf { Leaf m a b at words.old × (top ≤ modulus.q) }
    requires in_ring { InRing modulus.q m (part words.old a) × InRing top m (part words.old b) }
    ensures { words.new ≡ leaf_product modulus.q m a b at words.old }
{
    if (modulus.q as u64) * (top as u64) <= UNCUT {
        multiply_uncut(words, a, b, at, m, modulus, top);
    } else {
        multiply_cut(words, a, b, at, m, modulus);
    }
}
