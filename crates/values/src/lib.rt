// The value of a polynomial in x and y at a secret (01, "Draws from lent random octets": opening), which decryption, the zero test and a
// key's constant need.
//
// The polynomial's octets are lent. Horner's rule, x inside and y outside: a row is the terms of one power of y, taken by falling powers of
// x, and the rows are taken by falling powers of y. Each term but one costs one product with a small element, and five parts of n words
// serve every degree: u_x, u_y, the value, the row and a spare one. Each coefficient is read once, and the first that is not below q is
// refused; what the words hold then is left open. n, qlen and q stay parameters: more is promised than for the numbers of a set. The
// contracts cite the definitions' value, judging's fit_number and specs/Horner.antt.
#![tactic(auto)]

ghost use Rattle.std.specs.Prelude.{◌≡◌, ℕ, ◌+◌, ◌*◌, ◌%◌, ◌≤◌, ◌<◌, length, OnOk};
ghost use Rattle.definitions.specs.Parameters.{monomial_count};
ghost use Rattle.definitions.specs.Ring.{InRing};
ghost use Rattle.definitions.specs.Monomials.{value};
ghost use Rattle.definitions.specs.Octets.{decoded};
ghost use Rattle.definitions.specs.Calls.{polynomial_in};
ghost use Rattle.parameters.specs.Refusals.{number_in};
ghost use Rattle.ring.specs.Work.{part};
ghost use Rattle.decoding.specs.Elements.{Sizes};
ghost use Rattle.judging.specs.Reading.{coefficient_number, fit_number};
ghost use Rattle.values.specs.Horner.{stepped, row_of, fits_at, row_fits, Placed};

use parameters::refusals::Refusal;

// The element at a place of the octets, read into a part of the work words.
fn read_element(
    octets: &[u8],
    element: usize,
    n: usize,
    qlen: usize,
    q: u32,
    work: &mut [u32],
    at: usize,
) -> Result<(), Refusal>
    requires { Sizes n qlen work.old × (element < 45) × (element * n * qlen + n * qlen ≤ length octets.now) × (at + n ≤ length work.old) }
    ensures judged { number_in result ≡ coefficient_number (fits_at q n qlen octets.now element) }
    ensures placed { OnOk result (Placed n at (polynomial_in n qlen octets.now element) work.old work.new) }
{
    let from = element * n * qlen;
    let stop = at + n;
    judging::read(&octets[from..], qlen, q, &mut work[at..stop])
}

// One step of Horner's rule at a part: it becomes itself times a factor, and the next element added. The first element of all is copied.
fn step(work: &mut [u32], at: usize, factor: usize, next: usize, count: usize, n: usize, q: u32)
    requires n_bound { (factor + n ≤ at) × (at + n ≤ next) × (next + n ≤ length work.old) × (n ≤ 4096) × (16 ≤ q) × (q < 2147483648) }
    requires in_ring { (0 < count → InRing q n (part work.old at)) × InRing 16 n (part work.old factor) × InRing q n (part work.old next) }
    ensures { Placed n at (stepped n q count (part work.old at) (part work.old factor) (part work.old next)) work.old work.new }
{
    if 0 < count {
        products::multiply_add(work, at, factor, next, n, q, 16);
    }
    ring::copy(work, at, next, n);
}

// The row of y^(d - t), into the fourth part.
fn row(
    octets: &[u8],
    d: usize,
    t: usize,
    n: usize,
    qlen: usize,
    q: u32,
    work: &mut [u32],
) -> Result<(), Refusal>
    requires sizes { Sizes n qlen work.old × (d ≤ 8) × (t ≤ d) × (length octets.now ≡ monomial_count d * n * qlen) × (16 ≤ q) × (q < 2147483648) }
    requires in_ring { InRing 16 n (part work.old 0) }
    ensures judged { number_in result ≡ coefficient_number (row_fits d (fits_at q n qlen octets.now) t) }
    ensures placed { OnOk result (Placed n (3 * n) (λ k. row_of n d (polynomial_in n qlen octets.now) (part work.old 0) t k % q) work.old work.new) }
{
    let mut first = 0;
    for s in 0..t + 1 {
        read_element(octets, first + (d - t), n, qlen, q, work, 4 * n)?;
        step(work, 3 * n, 0, 4 * n, s, n, q);
        first += d + 1 - s;
    }
    Ok(())
}

// The value of the polynomial of degree d in the octets, into the third part; refused where one of its coefficients is not below q.
pub fn evaluate(
    octets: &[u8],
    d: usize,
    n: usize,
    qlen: usize,
    q: u32,
    work: &mut [u32],
) -> Result<(), Refusal>
    requires sizes { Sizes n qlen work.old × (d ≤ 8) × (length octets.now ≡ monomial_count d * n * qlen) × (16 ≤ q) × (q < 2147483648) }
    requires in_ring { InRing 16 n (part work.old 0) × InRing 16 n (part work.old n) }
    ensures judged { number_in result ≡ fit_number q (decoded qlen (monomial_count d * n) octets.now) }
    ensures evaluated { OnOk result ((k : ℕ) → k < n → part work.new (2 * n) k ≡ value n d (polynomial_in n qlen octets.now) (part work.old 0) (part work.old n) k % q) }
{
    for t in 0..d + 1 {
        row(octets, d, t, n, qlen, q, work)?;
        step(work, 2 * n, n, 3 * n, t, n, q);
    }
    Ok(())
}
