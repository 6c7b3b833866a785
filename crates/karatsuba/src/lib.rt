// The product of two polynomials by Karatsuba: each is split in halves, a = a0 + a1 t^h, and a0 b0, a1 b1 and (a0 + a1)(b0 + b1) give
// the product, since a0 b1 + a1 b0 is the third less the first two. After so many levels the halves are multiplied row by row.
//
// All stands in one slice of words: a and b, behind them the product, and behind it the third of the three and the words of the level
// below. The sums of the halves stand where the outer two products come once they are used. Nothing is refused: callers lend 2 m words
// for the product and 2 m more that are free. Contracts cite ring's linear by specs/Products.antt.
#![tactic(auto)]

ghost use Rattle.std.specs.Prelude.{◌≡◌, ◌+◌, ◌<◌, ◌≤◌, length};
ghost use Rattle.definitions.specs.Ring.{InRing};
ghost use Rattle.ring.specs.Work.{part};
ghost use Rattle.karatsuba.specs.Halvable.{Halvable};
ghost use Rattle.karatsuba.specs.Products.{Placing, Multiplied, BoundsSums, HalvesAdded, Joined};

use reduction::Modulus;

// How a product of m coefficients is halved: so many times, down to leaves; m is leaf times 2^levels.
#[derive(Clone, Copy)]
pub struct Halving {
    pub levels: usize,
    pub leaf: usize,
    pub m: usize,
    pub ghost halvable: { Halvable levels leaf m },
}

impl Halving {
    // A level below: half as many coefficients.
    fn below(self) -> Halving
        requires { self.levels ≡ 0 → ⊥ }
        ensures half { self.m ≡ result.m + result.m }
        ensures less { result.levels < self.levels }
    {
        Halving {
            levels: self.levels - 1,
            leaf: self.leaf,
            m: self.m / 2,
        }
    }
}

// A bound of the sum of two coefficients below top, modulo q.
fn doubled(top: u32, q: u32) -> u32
    requires { (top ≤ q) × (0 < q) }
    ensures { BoundsSums q top result }
{
    if top < q - top { top + top } else { q }
}

// The sums of the halves of a and of b, one after the other from at on.
fn add_halves(words: &mut [u32], a: usize, b: usize, at: usize, h: usize, q: u32)
    requires h_bound { (a + (h + h) ≤ at) × (b + (h + h) ≤ at) × (at + (h + h) ≤ length words.old) × (q < 2147483648) }
    requires in_ring { InRing q (h + h) (part words.old a) × InRing q (h + h) (part words.old b) }
    ensures { HalvesAdded q h a b at words.old words.new }
{
    ring::copy(words, at, a, h);
    ring::add(words, at, a + h, h, q);
    ring::copy(words, at + h, b, h);
    ring::add(words, at + h, b + h, h, q);
}

// The three products put together: the middle one less the outer two is added h places up.
fn join(words: &mut [u32], at: usize, free: usize, m: usize, h: usize, q: u32)
    requires m_bound { (at + (m + m) ≤ free) × (free + m ≤ length words.old) × (m ≡ h + h) × (0 < q) × (q < 2147483648) }
    requires in_ring { InRing q (m + m) (part words.old at) × InRing q m (part words.old free) }
    ensures { Joined q m h at free words.old words.new }
{
    ring::subtract(words, free, at, m, q);
    ring::subtract(words, free, at + m, m, q);
    ring::add(words, at + h, free, m, q);
}

// The product modulo q of the polynomials of m coefficients that stand from a and from b on in the words, to the words from at on; top is a
// bound of the second one's coefficients. The words from free on are left as anything.
pub fn multiply(
    words: &mut [u32],
    a: usize,
    b: usize,
    at: usize,
    free: usize,
    h: Halving,
    modulus: Modulus,
    top: u32,
)
    requires placing { Placing h.m a b at free words.old × (top ≤ modulus.q) }
    requires in_ring { InRing modulus.q h.m (part words.old a) × InRing top h.m (part words.old b) }
    ensures { Multiplied modulus.q h.m a b at free words.old words.new }
{
    if h.levels == 0 {
        rows::multiply(words, a, b, at, h.leaf, modulus, top);
        return;
    }
    let below = h.below();
    let m = h.m;
    let half = below.m;
    let r = doubled(top, modulus.q);
    // Where the upper halves, the second sum, the second product and the words of the level below stand.
    let a1 = a + half;
    let b1 = b + half;
    let mid = at + half;
    let up = at + m;
    let rest = free + m;
    add_halves(words, a, b, at, half, modulus.q);
    multiply(words, at, mid, free, rest, below, modulus, r);
    multiply(words, a, b, at, rest, below, modulus, top);
    multiply(words, a1, b1, up, rest, below, modulus, top);
    join(words, at, free, m, half, modulus.q);
}
