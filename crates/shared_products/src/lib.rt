// The product of a public key and a mask of the same degree (01, "Draws from lent random octets": sealing), element by element.
//
// X_i r_j + X_j r_i is (X_i + X_j)(r_i + r_j) less X_i r_i and X_j r_j. The products X_i r_i are taken once, into a list behind the key's
// elements, so that degree 1 costs 6 products and not 9, and degree 2 costs 21 and not 36. The work words are as in mask_products: the
// mask's elements in the first six parts, the factor of the key in part 6, the sum in part 7. While the sum of two elements of the mask is
// multiplied, it stands in the place of one of them, which is then restored. Nothing is refused. The contracts cite the definitions'
// product_of, through mask_products' specs and specs/Sharing.antt.
#![tactic(auto)]

ghost use Rattle.std.specs.Prelude.{◌≡◌, ◌+◌, ◌*◌, ◌%◌, ◌≤◌, ◌<◌, length, take};
ghost use Rattle.definitions.specs.Sequences.{tabulate};
ghost use Rattle.definitions.specs.Parameters.{degree, monomial_count};
ghost use Rattle.definitions.specs.Ring.{conv, InRing};
ghost use Rattle.definitions.specs.Calls.{polynomial_from};
ghost use Rattle.parameters.specs.Answers.{set_from};
ghost use Rattle.ring.specs.Work.{written};
ghost use Rattle.mask_products.specs.Products.{mask_in, sum_in, pair_term, product_term, KeyAndMask, SumIs, SumGains};
ghost use Rattle.shared_products.specs.Sharing.{key_in, pair_sum, element_prepared, PreparedKey, Shared, SharedAdding, both_terms, row_of_pairs};

use parameters::Parameters;

// Where X_i r_i stands in the list.
fn diagonal_at(p: Parameters, i: usize) -> usize
    requires { i < 6 }
    ensures { result ≡ (monomial_count p.set.dx + i) * p.set.n }
{
    (monomials::monomial_count(p.set.dx) + i) * (p.set.n as usize)
}

// One element of the key and its product with the mask's at the same place, into the list.
fn prepare_element(p: Parameters, public: &[u8], i: usize, work: &mut [u32], list: &mut [u32])
    requires key_and_mask { KeyAndMask (set_from p) public.now work.old × (p.set.dx ≡ p.set.dr) × (i < monomial_count p.set.dx) }
    requires list_room { 2 * (monomial_count p.set.dx * p.set.n) ≤ length list.old }
    ensures mask_kept { take (6 * p.set.n) work.new ≡ take (6 * p.set.n) work.old }
    ensures prepared { list.new ≡ element_prepared (set_from p) (polynomial_from (set_from p) public.now) (mask_in (set_from p) work.old) i list.old }
{
    let n = p.set.n as usize;
    let diagonal = diagonal_at(p, i);
    mask_products::clear_sum(p, work);
    mask_products::load_key(p, public, i, work);
    ring::copy_from(list, i * n, work, 6 * n, n);
    mask_products::multiply_mask(p, i, work);
    ring::copy_from(list, diagonal, work, 7 * n, n);
}

// The key's elements and the diagonal, into the list.
pub fn prepare(p: Parameters, public: &[u8], work: &mut [u32], list: &mut [u32])
    requires { KeyAndMask (set_from p) public.now work.old × (p.set.dx ≡ p.set.dr) × (2 * (monomial_count p.set.dx * p.set.n) ≤ length list.old) }
    ensures { PreparedKey (set_from p) public.now work.old list.new × (take (6 * p.set.n) work.new ≡ take (6 * p.set.n) work.old) }
{
    for i in 0..monomials::monomial_count(p.set.dx) {
        prepare_element(p, public, i, work, list);
    }
}

// X_i + X_j, into part 6.
fn load_sum(p: Parameters, list: &[u32], i: usize, j: usize, work: &mut [u32])
    requires { Shared (set_from p) work.old list.now × (i < monomial_count p.set.dx) × (j < i) }
    ensures { work.new ≡ written (6 * p.set.n) (tabulate p.set.n (λ k. pair_sum (key_in (set_from p) list.now) i j k % p.set.q)) work.old }
{
    let n = p.set.n as usize;
    let spare = 6 * n;
    ring::copy_from(work, spare, list, i * n, n);
    ring::add_from(work, spare, list, j * n, n, p.set.q);
}

// (X_i + X_j)(r_i + r_j), added to the sum. The sum of the mask's elements stands in the place of the first meanwhile.
fn multiply_sums(p: Parameters, list: &[u32], i: usize, j: usize, work: &mut [u32])
    requires { Shared (set_from p) work.old list.now × (i < monomial_count p.set.dx) × (j < i) × InRing p.set.q p.set.n (sum_in (set_from p) work.old) }
    ensures { SumGains (set_from p) (λ mask. conv p.set.n (pair_sum (key_in (set_from p) list.now) i j) (pair_sum mask i j)) work.old work.new }
{
    let n = p.set.n as usize;
    let at = i * n;
    let other = j * n;
    load_sum(p, list, i, j, work);
    ring::add(work, at, other, n, p.set.q);
    mask_products::multiply_mask(p, i, work);
    ring::subtract(work, at, other, n, p.set.q);
}

// X_i r_j + X_j r_i, where j is before i and their monomials give the m-th.
fn add_pair(p: Parameters, list: &[u32], i: usize, j: usize, m: usize, work: &mut [u32])
    requires { SharedAdding (set_from p) m work.old list.now × (i < monomial_count p.set.dx) × (j < i) }
    ensures { SumGains (set_from p) (both_terms (set_from p) (key_in (set_from p) list.now) m i j) work.old work.new }
{
    if !monomials::same_monomial(p.set.dx, i, p.set.dr, j, m) {
        return;
    }
    let n = p.set.n as usize;
    let total = 7 * n;
    let first = diagonal_at(p, i);
    let second = diagonal_at(p, j);
    multiply_sums(p, list, i, j, work);
    ring::subtract_from(work, total, list, first, n, p.set.q);
    ring::subtract_from(work, total, list, second, n, p.set.q);
}

// X_i r_i, where the monomial's square is the m-th.
fn add_square(p: Parameters, list: &[u32], i: usize, m: usize, work: &mut [u32])
    requires { SharedAdding (set_from p) m work.old list.now × (i < monomial_count p.set.dx) }
    ensures { SumGains (set_from p) (pair_term (set_from p) (key_in (set_from p) list.now) m i i) work.old work.new }
{
    if !monomials::same_monomial(p.set.dx, i, p.set.dr, i, m) {
        return;
    }
    let n = p.set.n as usize;
    ring::add_from(work, 7 * n, list, diagonal_at(p, i), n, p.set.q);
}

// One monomial with itself and with each before it.
fn add_row(p: Parameters, list: &[u32], i: usize, m: usize, work: &mut [u32])
    requires { SharedAdding (set_from p) m work.old list.now × (i < monomial_count p.set.dx) }
    ensures { SumGains (set_from p) (row_of_pairs (set_from p) (key_in (set_from p) list.now) m i) work.old work.new }
{
    add_square(p, list, i, m, work);
    for j in 0..i {
        add_pair(p, list, i, j, m, work);
    }
}

// The m-th element of the product X × r becomes the sum.
pub fn product_at(p: Parameters, list: &[u32], m: usize, work: &mut [u32])
    requires { Shared (set_from p) work.old list.now × (m < monomial_count (degree (set_from p))) }
    ensures { SumIs (set_from p) (product_term (set_from p) (key_in (set_from p) list.now) m) work.old work.new }
{
    mask_products::clear_sum(p, work);
    for i in 0..monomials::monomial_count(p.set.dx) {
        add_row(p, list, i, m, work);
    }
}
