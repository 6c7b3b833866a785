// The order of the monomials (01, "Ring, monomials, octets", second paragraph): by falling total degree, then by falling power of x.
// The list of degree 4 is a table of exponent pairs, and the list of a lower degree is its tail. How many a list has is told by
// `monomials::monomial_count`. Contracts cite the definitions' `monomial_count`, and `monomial_at` through specs/Pairs.antt. Nothing is
// refused: callers keep the degree to 4 and the place to the list.
#![tactic(auto)]

ghost use Rattle.std.specs.Prelude.{◌≡◌, ◌+◌, ◌≤◌, ◌<◌, cond};
ghost use Rattle.definitions.specs.Parameters.{monomial_count};
ghost use Rattle.definitions.specs.Monomials.{monomial_at, same_monomial};
ghost use Rattle.monomials.specs.Pairs.{monomial_from};

// A monomial, by its exponents of x and of y.
#[derive(Clone, Copy)]
pub struct Exponents {
    pub x: u8,
    pub y: u8,
}

// The 15 monomials of degree at most 4.
const PAIRS: [Exponents; 15] = [
    Exponents { x: 4, y: 0 },
    Exponents { x: 3, y: 1 },
    Exponents { x: 2, y: 2 },
    Exponents { x: 1, y: 3 },
    Exponents { x: 0, y: 4 },
    Exponents { x: 3, y: 0 },
    Exponents { x: 2, y: 1 },
    Exponents { x: 1, y: 2 },
    Exponents { x: 0, y: 3 },
    Exponents { x: 2, y: 0 },
    Exponents { x: 1, y: 1 },
    Exponents { x: 0, y: 2 },
    Exponents { x: 1, y: 0 },
    Exponents { x: 0, y: 1 },
    Exponents { x: 0, y: 0 },
];

// How many monomials have total degree at most d.
pub fn monomial_count(d: u32) -> usize
    requires { d ≤ 4 }
    ensures { result ≡ monomial_count d }
{
    ((d + 1) * (d + 2) / 2) as usize
}

// Where the list of each degree starts in it: 15 less the number of its monomials.
const START: [u8; 5] = [14, 12, 9, 5, 0];

// The list of degree d is the table's tail from here on.
fn start(d: u32) -> usize
    requires { d ≤ 4 }
    ensures { result + monomial_count d ≡ 15 }
{
    START[d as usize] as usize
}

// The monomial at place i of degree d's list.
pub fn monomial(d: u32, i: usize) -> Exponents
    requires { (d ≤ 4) × (i < monomial_count d) }
    ensures { monomial_from result ≡ monomial_at d i }
{
    PAIRS[start(d) + i]
}

// Whether the i-th monomial of degree d times the j-th of degree e is the m-th of degree d + e.
pub fn same_monomial(d: u32, i: usize, e: u32, j: usize, m: usize) -> bool
    requires { (d ≤ 2) × (e ≤ 2) × (i < monomial_count d) × (j < monomial_count e) × (m < monomial_count (d + e)) }
    ensures { cond result 1 0 ≡ same_monomial (monomial_at d i) (monomial_at e j) (monomial_at (d + e) m) }
{
    let first = monomial(d, i);
    let second = monomial(e, j);
    let product = monomial(d + e, m);
    (first.x + second.x == product.x) & (first.y + second.y == product.y)
}
