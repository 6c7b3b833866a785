// A number below 2^64 modulo q without a division (Barrett): the quotient is the high half of the product with q's reciprocal, and at
// most one too small. Nothing is refused: callers give a q below 2^31. The contracts are `%` and `/` of whole numbers.
#![tactic(auto)]

ghost use Rattle.std.specs.Prelude.{◌≡◌, ◌*◌, ◌%◌, ◌/◌, ◌<◌};
ghost use Rattle.reduction.specs.Moduli.{Reciprocal};

// A modulus and its reciprocal, the largest word divided by it.
#[derive(Clone, Copy)]
pub struct Modulus {
    pub q: u32,
    pub reciprocal: u64,
    pub ghost exact: { Reciprocal q reciprocal },
}

// The parts of a word are its low and its high 32 bits: 2^32.
const HALF: u64 = 4294967296;

// The high half of a product of two words, from the products of their parts.
fn high_half(a: u64, b: u64) -> u64
    ensures { result ≡ a * b / 18446744073709551616 }
{
    let a0 = a % HALF;
    let a1 = a / HALF;
    let b0 = b % HALF;
    let b1 = b / HALF;
    let middle = a1 * b0 + a0 * b0 / HALF;
    let other = a0 * b1 + middle % HALF;
    a1 * b1 + middle / HALF + other / HALF
}

pub fn with_reciprocal(q: u32) -> Modulus
    requires { (0 < q) × (q < 2147483648) }
    ensures { (result.q ≡ q) × Reciprocal result.q result.reciprocal }
{
    Modulus {
        q,
        reciprocal: u64::MAX / (q as u64),
    }
}

// s modulo q.
pub fn remainder(s: u64, m: Modulus) -> u32
    ensures { result ≡ s % m.q }
{
    let q = m.q;
    let r = s - high_half(s, m.reciprocal) * (q as u64);
    let t = r as u32;
    if t < q { t } else { t - q }
}
