// One element of the product of a public key and a mask (01, "Draws from lent random octets": sealing), which encryption adds to.
//
// The key's octets are lent. The work words are eight parts of n words: the mask's elements in the first six, a key element in part 6
// while it is multiplied, and the sum in part 7. Each pair of monomials whose product is the m-th is multiplied and added. Nothing is
// refused: the caller has judged the octets and drawn the mask. The contracts cite the definitions' product_of, through specs/Products.antt.
#![tactic(auto)]

ghost use Rattle.std.specs.Prelude.{◌≡◌, ◌*◌, ◌<◌, length};
ghost use Rattle.definitions.specs.Sequences.{tabulate};
ghost use Rattle.definitions.specs.Parameters.{degree, monomial_count, work_length};
ghost use Rattle.definitions.specs.Ring.{InRing, conv};
ghost use Rattle.definitions.specs.Calls.{polynomial_from};
ghost use Rattle.parameters.specs.Answers.{set_from};
ghost use Rattle.ring.specs.Work.{part, written};
ghost use Rattle.mask_products.specs.Products.{mask_in, sum_in, pair_term, element_terms, product_term, KeyAndMask, Adding, SumIs, SumGains};

use parameters::Parameters;

// The sum becomes 0.
pub fn clear_sum(p: Parameters, work: &mut [u32])
    requires { length work.old ≡ work_length (set_from p) }
    ensures { SumIs (set_from p) (λ mask k. 0) work.old work.new }
{
    let n = p.set.n as usize;
    let from = 7 * n;
    let end = from + n;
    ring::clear(&mut work[from..end]);
}

// The key's i-th element, into part 6.
pub fn load_key(p: Parameters, public: &[u8], i: usize, work: &mut [u32])
    requires { KeyAndMask (set_from p) public.now work.old × (i < monomial_count p.set.dx) }
    ensures { work.new ≡ written (6 * p.set.n) (tabulate p.set.n (polynomial_from (set_from p) public.now i)) work.old }
{
    let n = p.set.n as usize;
    decoding::element(
        public,
        i,
        n,
        lengths::octets_of_coefficient(p.set.q),
        work,
        6 * n,
    );
}

// Part 6 times the mask's j-th element, added to the sum.
pub fn multiply_mask(p: Parameters, j: usize, work: &mut [u32])
    requires work_exact { (length work.old ≡ work_length (set_from p)) × (j < 6) }
    requires in_ring { InRing p.set.q p.set.n (part work.old (6 * p.set.n)) × InRing p.set.q p.set.n (mask_in (set_from p) work.old j) × InRing p.set.q p.set.n (sum_in (set_from p) work.old) }
    ensures { SumGains (set_from p) (λ mask. conv p.set.n (part work.old (6 * p.set.n)) (mask j)) work.old work.new }
{
    let n = p.set.n as usize;
    products::multiply_add(work, 6 * n, j * n, 7 * n, n, p.set.q, p.set.q);
}

// One pair of monomials.
fn add_pair(p: Parameters, public: &[u8], i: usize, j: usize, m: usize, work: &mut [u32])
    requires { Adding (set_from p) m public.now work.old × (i < monomial_count p.set.dx) × (j < monomial_count p.set.dr) }
    ensures { SumGains (set_from p) (pair_term (set_from p) (polynomial_from (set_from p) public.now) m i j) work.old work.new }
{
    if !monomials::same_monomial(p.set.dx, i, p.set.dr, j, m) {
        return;
    }
    load_key(p, public, i, work);
    multiply_mask(p, j, work);
}

// One monomial of the key, with each of the mask.
fn add_element(p: Parameters, public: &[u8], i: usize, m: usize, work: &mut [u32])
    requires { Adding (set_from p) m public.now work.old × (i < monomial_count p.set.dx) }
    ensures { SumGains (set_from p) (element_terms (set_from p) (polynomial_from (set_from p) public.now) m i) work.old work.new }
{
    for j in 0..monomials::monomial_count(p.set.dr) {
        add_pair(p, public, i, j, m, work);
    }
}

// The m-th element of the product X × r becomes the sum.
pub fn product_at(p: Parameters, public: &[u8], m: usize, work: &mut [u32])
    requires { KeyAndMask (set_from p) public.now work.old × (m < monomial_count (degree (set_from p))) }
    ensures { SumIs (set_from p) (product_term (set_from p) (polynomial_from (set_from p) public.now) m) work.old work.new }
{
    clear_sum(p, work);
    for i in 0..monomials::monomial_count(p.set.dx) {
        add_element(p, public, i, m, work);
    }
}
