// a × b + c in R_q over a list of words (01, "Ring, monomials, octets"; 02, Q-8), with c and the result in the same words: the one product of
// two elements that the calls take. The product of two polynomials is taken by Karatsuba, in an array of its own, then t^n = 1 and c by
// sums of two coefficients; a short one is summed row by row from where its factors stand, and reduced once before c is added. Nothing is
// refused: callers keep parts within the words, c apart from a and b, and coefficients below q. The contract of multiply_add cites ring's
// product_added for all words, and MultipliedInPlace for the three; the steps' contracts cite the rest of specs/Products.antt.
#![tactic(auto)]

ghost use Rattle.std.specs.Prelude.{◌≡◌, ℕ, ◌+◌, ◌*◌, ◌%◌, ◌<◌, ◌≤◌, length, get_or};
ghost use Rattle.definitions.specs.Sequences.{tabulate};
ghost use Rattle.definitions.specs.Ring.{InRing, element_of};
ghost use Rattle.ring.specs.Work.{part, written, Apart, product_added};
ghost use Rattle.products.specs.Products.{ProductFits, with_product, MultipliedInPlace};

use karatsuba::Halving;
use reduction::Modulus;

// The most coefficients of a product that is summed row by row.
const SHORT: usize = 80;

// a × b + c in R_q, to be taken in place: the elements of n coefficients stand from these offsets on in the words, and b's are below top.
#[derive(Clone, Copy)]
struct Product {
    a: usize,
    b: usize,
    c: usize,
    n: usize,
    top: u32,
}

// How a product of n coefficients is halved: to the fewest leaves, twice as many until they are short enough.
fn split(n: usize) -> Halving
    requires { n ≤ 4096 }
    ensures { n ≤ result.m }
{
    let mut levels = 0;
    let mut leaves = 1;
    // Kept as a while: it doubles, and counts no index.
    while 80 * leaves < n {
        levels += 1;
        leaves += leaves;
    }
    let leaf = n.div_ceil(leaves);
    Halving {
        levels,
        leaf,
        m: leaf * leaves,
    }
}

// The sum of three coefficients.
fn folded(x: u32, y: u32, z: u32, q: u32) -> u32
    requires { (x < q) × (y < q) × (z < q) × (q < 2147483648) }
    ensures { result ≡ (x + y + z) % q }
{
    ring::sum(ring::sum(x, y, q), z, q)
}

// t^n = 1: of the product that stands from at on in other words, the places from n on come to those from 0 on, and c is added.
fn fold(work: &mut [u32], c: usize, n: usize, q: u32, words: &[u32], at: usize)
    requires n_in_bounds { (c + n ≤ length work.old) × (at + (n + n) ≤ length words.now) × (q < 2147483648) }
    requires in_ring { InRing q n (part work.old c) × InRing q (n + n) (part words.now at) }
    ensures { work.new ≡ written c (tabulate n (λ k. (part words.now at k + part words.now at (n + k) + part work.old c k) % q)) work.old }
{
    for k in 0..n {
        let low = words[at + k];
        let high = words[at + (n + k)];
        work[c + k] = folded(low, high, work[c + k], q);
    }
}

// The same of sums that are not reduced yet: the two of a place are reduced together, and then c is added.
fn fold_sums(work: &mut [u32], c: usize, n: usize, modulus: Modulus, low: &[u64])
    requires n_in_bounds { (c + n ≤ length work.old) × (n + n ≤ length low.now) × InRing modulus.q n (part work.old c) }
    requires sums_fit { (k : ℕ) → k < n → get_or low.now k 0 + get_or low.now (n + k) 0 < 18446744073709551616 }
    ensures { work.new ≡ written c (tabulate n (λ k. (get_or low.now k 0 + get_or low.now (n + k) 0 + part work.old c k) % modulus.q)) work.old }
{
    for k in 0..n {
        let s = reduction::remainder(low[k] + low[n + k], modulus);
        work[c + k] = ring::sum(s, work[c + k], modulus.q);
    }
}

// The product of p, row by row: short enough that the sums fit a word.
fn short(work: &mut [u32], p: Product, modulus: Modulus)
    requires { ProductFits p modulus work.old × (p.n ≤ 80) × (modulus.q * p.top ≤ 230584300921369395) }
    ensures { work.new ≡ with_product p modulus.q work.old }
{
    let mut low = [0u64; 168];
    rows::sums(work, p.a, p.b, p.n, modulus.q, p.top, &mut low);
    fold_sums(work, p.c, p.n, modulus, &low);
}

// The product of p in a list of its own: a from 0 on and b from m on, each filled up with 0, their product from 2 m on, and behind it the words
// that Karatsuba's product needs.
fn multiply_in(work: &mut [u32], p: Product, modulus: Modulus, h: Halving, words: &mut [u32])
    requires { ProductFits p modulus work.old × (p.n ≤ h.m) × (6 * h.m ≤ length words.old) × InRing 1 (2 * h.m) (element_of words.old) }
    ensures { work.new ≡ with_product p modulus.q work.old }
{
    let m = h.m;
    let at = m + m;
    let free = at + at;
    ring::copy_from(words, 0, work, p.a, p.n);
    ring::copy_from(words, m, work, p.b, p.n);
    karatsuba::multiply(words, 0, m, at, free, h, modulus, p.top);
    fold(work, p.c, p.n, modulus.q, words, at);
}

// The same in an array of zeros of so many words.
fn multiply_in_array<const WORDS: usize>(work: &mut [u32], p: Product, modulus: Modulus, h: Halving)
    requires { ProductFits p modulus work.old × (p.n ≤ h.m) × (6 * h.m ≤ WORDS) × (WORDS ≤ 24576) }
    ensures { work.new ≡ with_product p modulus.q work.old }
{
    let mut words = [0u32; WORDS];
    multiply_in(work, p, modulus, h, &mut words);
}

// The same in an array of the least of three sizes: clearing it then costs little beside the product.
fn multiply_long(work: &mut [u32], p: Product, modulus: Modulus)
    requires { ProductFits p modulus work.old × (p.n ≤ 4096) }
    ensures { work.new ≡ with_product p modulus.q work.old }
{
    let h = split(p.n);
    if h.m <= 80 {
        multiply_in_array::<480>(work, p, modulus, h);
    } else if h.m <= 1280 {
        multiply_in_array::<7680>(work, p, modulus, h);
    } else {
        multiply_in_array::<24576>(work, p, modulus, h);
    }
}

// In place c := a × b + c in R_q; b's coefficients are below top: q, or less for a small factor. a and b, which may be one, stay, and so do
// all other words.
pub fn multiply_add(work: &mut [u32], a: usize, b: usize, c: usize, n: usize, q: u32, top: u32)
    requires n_in_bounds { (a + n ≤ length work.old) × (b + n ≤ length work.old) × (c + n ≤ length work.old) × (n ≤ 4096) × (0 < top) × (top ≤ q) × (q < 2147483648) }
    requires apart { Apart c a n × Apart c b n × InRing q n (part work.old a) × InRing top n (part work.old b) × InRing q n (part work.old c) }
    ensures added { work.new ≡ product_added n q a b c work.old }
    ensures multiplied_in_place { MultipliedInPlace q n a b c work.old work.new }
{
    let modulus = reduction::with_reciprocal(q);
    let p = Product { a, b, c, n, top };
    if n <= SHORT && (q as u64) * (top as u64) <= rows::UNCUT {
        short(work, p, modulus);
    } else {
        multiply_long(work, p, modulus);
    }
}
