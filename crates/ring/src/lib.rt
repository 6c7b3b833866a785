// Sums, differences and multiples in R_q over the work words (01, "Ring, monomials, octets"): elements stand in one slice, each from an
// offset on, or in another list. They are named by their offsets: a slice for each would have to be split off the words at every call, in
// the order in which the parts stand. Sums and differences keep their names, which the calls go by. Nothing is refused: callers keep parts
// within the words and coefficients below q. Contracts cite specs/Work.antt; specs/Coefficients.antt has the formula of a sum.
#![tactic(auto)]

ghost use Rattle.std.specs.Prelude.{ℕ, ◌≡◌, ◌+◌, ◌-◌, ◌%◌, ◌<◌, ◌≤◌, eqb, length, replicate};
ghost use Rattle.definitions.specs.Sequences.{every, tabulate};
ghost use Rattle.definitions.specs.Ring.{scale, InRing};
ghost use Rattle.ring.specs.Work.{part, written, ReturnsWritten, Apart, element_added, element_taken, other_added, other_taken, scaled_added, negated};

// The sum of two coefficients, by sums, differences, products and shifts alone (02, Q-4); whatever adds two coefficients goes by it. Bit 31
// of s + (2^31 - q) is 1 just where s is q or more, and there q is taken off.
pub fn sum(a: u32, b: u32, q: u32) -> u32
    requires { (a < q) × (b < q) × (q < 2147483648) }
    ensures { result ≡ (a + b) % q }
{
    let s = a + b;
    s - q * ((s + (2147483648 - q)) >> 31)
}

// Each word of a part becomes f of itself and of the word at the same place of another part.
fn combine<F: Fn(u32, u32) -> u32>(work: &mut [u32], c: usize, e: usize, n: usize, f: F)
    requires n_in_bounds { (c + n ≤ length work.old) × (e + n ≤ length work.old) × Apart c e n }
    requires may_be_called { (i j : ℕ) → i < n → j < n → F.pre f (part work.old c i) (part work.old e j) }
    ensures { ReturnsWritten c n (λ k r. F.post f (part work.old c k) (part work.old e k) r) work.old work.new }
{
    for k in 0..n {
        work[c + k] = f(work[c + k], work[e + k]);
    }
}

// The same, with the word at the same place of another list, which is lent to be read alone.
fn combine_from<F: Fn(u32, u32) -> u32>(
    work: &mut [u32],
    c: usize,
    other: &[u32],
    e: usize,
    n: usize,
    f: F,
)
    requires n_in_bounds { (c + n ≤ length work.old) × (e + n ≤ length other.now) }
    requires may_be_called { (i j : ℕ) → i < n → j < n → F.pre f (part work.old c i) (part other.now e j) }
    ensures { ReturnsWritten c n (λ k r. F.post f (part work.old c k) (part other.now e k) r) work.old work.new }
{
    for k in 0..n {
        work[c + k] = f(work[c + k], other[e + k]);
    }
}

// In place c := c + e in R_q.
pub fn add(work: &mut [u32], c: usize, e: usize, n: usize, q: u32)
    requires n_in_bounds { (c + n ≤ length work.old) × (e + n ≤ length work.old) × Apart c e n × (q < 2147483648) }
    requires in_ring { InRing q n (part work.old c) × InRing q n (part work.old e) }
    ensures { work.new ≡ element_added n q e c work.old }
{
    combine(work, c, e, n, |a, b| sum(a, b, q));
}

// In place c := c + e in R_q, where e stands in another list.
pub fn add_from(work: &mut [u32], c: usize, other: &[u32], e: usize, n: usize, q: u32)
    requires n_in_bounds { (c + n ≤ length work.old) × (e + n ≤ length other.now) × (q < 2147483648) }
    requires in_ring { InRing q n (part work.old c) × InRing q n (part other.now e) }
    ensures { work.new ≡ other_added n q (part other.now e) c work.old }
{
    combine_from(work, c, other, e, n, |a, b| sum(a, b, q));
}

// The difference of two coefficients, by the same means: bit 31 of a + (2^31 - b) is 1 just where a is b or more, and elsewhere q is added.
pub fn difference(a: u32, b: u32, q: u32) -> u32
    requires { (a < q) × (b < q) × (q < 2147483648) }
    ensures { result ≡ (a + (q - b)) % q }
{
    a + (q - q * ((a + (2147483648 - b)) >> 31)) - b
}

// In place c := c - e in R_q.
pub fn subtract(work: &mut [u32], c: usize, e: usize, n: usize, q: u32)
    requires n_in_bounds { (c + n ≤ length work.old) × (e + n ≤ length work.old) × Apart c e n × (q < 2147483648) }
    requires in_ring { InRing q n (part work.old c) × InRing q n (part work.old e) }
    ensures { work.new ≡ element_taken n q e c work.old }
{
    combine(work, c, e, n, |a, b| difference(a, b, q));
}

// In place c := c - e in R_q, where e stands in another list.
pub fn subtract_from(work: &mut [u32], c: usize, other: &[u32], e: usize, n: usize, q: u32)
    requires n_in_bounds { (c + n ≤ length work.old) × (e + n ≤ length other.now) × (q < 2147483648) }
    requires in_ring { InRing q n (part work.old c) × InRing q n (part other.now e) }
    ensures { work.new ≡ other_taken n q (part other.now e) c work.old }
{
    combine_from(work, c, other, e, n, |a, b| difference(a, b, q));
}

// In place a := -a in R_q.
pub fn negate(work: &mut [u32], a: usize, n: usize, q: u32)
    requires { (a + n ≤ length work.old) × (q < 2147483648) × InRing q n (part work.old a) }
    ensures { work.new ≡ negated n q a work.old }
{
    for k in 0..n {
        work[a + k] = difference(0, work[a + k], q);
    }
}

// In place c := c + l × e in R_q, where each l × e_k is below q.
#[tactic(auto, unfolding(definitions::specs::Ring::scale))]
pub fn add_scaled(work: &mut [u32], c: usize, e: usize, l: u32, n: usize, q: u32)
    requires n_in_bounds { (c + n ≤ length work.old) × (e + n ≤ length work.old) × Apart c e n × (q < 2147483648) }
    requires in_ring { InRing q n (part work.old c) × InRing q n (scale l (part work.old e)) }
    ensures { work.new ≡ scaled_added n q l e c work.old }
{
    combine(work, c, e, n, |a, b| sum(a, l * b, q));
}

// The element at from, copied to another part.
pub fn copy(work: &mut [u32], to: usize, from: usize, n: usize)
    requires { (to + n ≤ length work.old) × (from + n ≤ length work.old) × Apart to from n }
    ensures { work.new ≡ written to (tabulate n (part work.old from)) work.old }
{
    work.copy_within(from..from + n, to);
}

// The element at a place of another list, copied to a part.
pub fn copy_from(to: &mut [u32], at: usize, from: &[u32], start: usize, n: usize)
    requires { (at + n ≤ length to.old) × (start + n ≤ length from.now) }
    ensures { to.new ≡ written at (tabulate n (part from.now start)) to.old }
{
    combine_from(to, at, from, start, n, |_, b| b);
}

// All words 0.
pub fn clear(work: &mut [u32])
    ensures { work.new ≡ replicate (length work.old) 0 }
{
    work.fill(0);
}

// The outcome, once the work words are zero: how a call ends past its length test (01, "Refusal table").
pub fn cleared<T>(work: &mut [u32], outcome: T) -> T
    ensures { (result ≡ outcome) × (work.new ≡ replicate (length work.old) 0) }
{
    clear(work);
    outcome
}

// Whether all words from one place to another are 0.
pub fn vanishes(work: &[u32], from: usize, end: usize) -> bool
    requires { end ≤ length work.now }
    ensures { result ≡ every (end - from) (λ k. eqb (part work.now from k) 0) }
{
    // By place and not over a part of the words: from may be past end.
    (from..end).all(|i| work[i] == 0)
}
