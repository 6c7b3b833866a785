// The elements of a ciphertext (01, "Draws from lent random octets": sealing), m + X × r + ℓ × e over R_q, written as octets.
//
// The mask's elements stand in the first six parts of the work words. Each element of the ciphertext is summed in part 7: the element of
// X × r, ℓ times the element of the noise, which is drawn from its octets at its place, and the message at the constant's place.
// Where the key and the mask have one degree and the list for it is not too long, X × r is taken by shared products. Nothing is refused:
// the caller has judged the key, drawn the mask and counted the octets of the noise. The contract cites the definitions' encrypted_with,
// through encrypted_from.
#![tactic(auto)]

ghost use Rattle.std.specs.Prelude.{◌≡◌, ◌+◌, ◌*◌, ◌≤◌, ◌<◌, length, IfSome};
ghost use Rattle.definitions.specs.Sequences.{tabulate};
ghost use Rattle.definitions.specs.Parameters.{degree, monomial_count, small_length, ciphertext_length, work_length, qlen};
ghost use Rattle.definitions.specs.Ring.{InRing};
ghost use Rattle.definitions.specs.Monomials.{constant_term};
ghost use Rattle.definitions.specs.Octets.{encoded};
ghost use Rattle.definitions.specs.Calls.{polynomial_from, small_of, noise_of};
ghost use Rattle.parameters.specs.Answers.{set_from};
ghost use Rattle.ring.specs.Work.{written};
ghost use Rattle.mask_products.specs.Products.{sum_in, product_term, KeyAndMask, SumIs, SumGains};
ghost use Rattle.shared_products.specs.Sharing.{PreparedKey};
ghost use Rattle.ciphertext_elements.specs.Elements.{encrypted_sum, encrypted_from, Encrypting};

use parameters::Parameters;

// The sum takes ℓ times the m-th noise element.
fn add_noise(p: Parameters, noise: &[u8], m: usize, work: &mut [u32])
    requires work_exact { (length work.old ≡ work_length (set_from p)) × InRing p.set.q p.set.n (sum_in (set_from p) work.old) }
    requires noise_room { m * small_length (set_from p) + small_length (set_from p) ≤ length noise.now }
    ensures { SumGains (set_from p) (λ mask k. p.set.l * noise_of (set_from p) noise.now m k) work.old work.new }
{
    let n = p.set.n as usize;
    let from = 6 * n;
    let end = from + n;
    let octets = &noise[m * lengths::small_length(p.set)..];
    draws::draw_noise(octets, p.set, &mut work[from..end]);
    ring::add_scaled(work, 7 * n, from, p.set.l, n, p.set.q);
}

// The sum takes the message, where m is the constant's place.
fn add_message(p: Parameters, message: &[u8], m: usize, work: &mut [u32])
    requires work_exact { (length work.old ≡ work_length (set_from p)) × InRing p.set.q p.set.n (sum_in (set_from p) work.old) }
    requires element { m < monomial_count (degree (set_from p)) }
    ensures { SumGains (set_from p) (λ mask. constant_term (degree (set_from p)) (small_of (set_from p) message.now) m) work.old work.new }
{
    if m + 1 != monomials::monomial_count(p.set.dx + p.set.dr) {
        return;
    }
    let n = p.set.n as usize;
    let from = 6 * n;
    let end = from + n;
    unpacking::unpack(message, parameters::bits(p.set.l), &mut work[from..end]);
    ring::add_scaled(work, 7 * n, from, 1, n, p.set.q);
}

// The m-th element of X × r becomes the sum; by shared products where a list was prepared.
fn product_element(p: Parameters, public: &[u8], list: Option<&[u32]>, m: usize, work: &mut [u32])
    requires key_and_mask { KeyAndMask (set_from p) public.now work.old × (m < monomial_count (degree (set_from p))) }
    requires prepared_key { IfSome list (λ words. PreparedKey (set_from p) public.now work.old words.now) }
    ensures { SumIs (set_from p) (product_term (set_from p) (polynomial_from (set_from p) public.now) m) work.old work.new }
{
    match list {
        Some(words) => shared_products::product_at(p, words, m, work),
        None => mask_products::product_at(p, public, m, work),
    }
}

// The m-th element of the ciphertext becomes the sum.
// kept as parameters: as fields of a struct each input would read `self.now.public.now` in the clauses
fn sum_element(
    p: Parameters,
    public: &[u8],
    message: &[u8],
    noise: &[u8],
    list: Option<&[u32]>,
    m: usize,
    work: &mut [u32],
)
    requires encrypting { Encrypting (set_from p) public.now noise.now work.old × (m < monomial_count (degree (set_from p))) }
    requires prepared_key { IfSome list (λ words. PreparedKey (set_from p) public.now work.old words.now) }
    ensures { SumIs (set_from p) (encrypted_sum (set_from p) public.now message.now noise.now m) work.old work.new }
{
    product_element(p, public, list, m, work);
    add_noise(p, noise, m, work);
    add_message(p, message, m, work);
}

// The sum, as the m-th element's octets.
fn encode_element(p: Parameters, m: usize, work: &[u32], ciphertext: &mut [u8])
    requires work_exact { length work.now ≡ work_length (set_from p) }
    requires element { (m < monomial_count (degree (set_from p))) × (length ciphertext.old ≡ ciphertext_length (set_from p)) }
    ensures { ciphertext.new ≡ written (m * p.set.n * qlen p.set.q) (encoded (qlen p.set.q) (tabulate p.set.n (sum_in (set_from p) work.now))) ciphertext.old }
{
    let n = p.set.n as usize;
    let width = lengths::octets_of_coefficient(p.set.q);
    let at = 7 * n;
    let stop = at + n;
    let from = m * n * width;
    let end = from + n * width;
    encoding::encode(&work[at..stop], width, &mut ciphertext[from..end]);
}

// Every element, one after the other.
fn write_each(
    p: Parameters,
    public: &[u8],
    message: &[u8],
    noise: &[u8],
    list: Option<&[u32]>,
    ciphertext: &mut [u8],
    work: &mut [u32],
)
    requires encrypting { Encrypting (set_from p) public.now noise.now work.old × (length ciphertext.old ≡ ciphertext_length (set_from p)) }
    requires prepared_key { IfSome list (λ words. PreparedKey (set_from p) public.now work.old words.now) }
    ensures { ciphertext.new ≡ encrypted_from (set_from p) public.now message.now noise.now work.old }
{
    for m in 0..monomials::monomial_count(p.set.dx + p.set.dr) {
        sum_element(p, public, message, noise, list, m, work);
        encode_element(p, m, work, ciphertext);
    }
}

// Where the products are shared: a list of so many words is prepared first.
fn write_in<const WORDS: usize>(
    p: Parameters,
    public: &[u8],
    message: &[u8],
    noise: &[u8],
    ciphertext: &mut [u8],
    work: &mut [u32],
)
    requires encrypting { Encrypting (set_from p) public.now noise.now work.old × (length ciphertext.old ≡ ciphertext_length (set_from p)) }
    requires one_degree { (p.set.dx ≡ p.set.dr) × (2 * (monomial_count p.set.dx * p.set.n) ≤ WORDS) × (WORDS ≤ 24576) }
    ensures { ciphertext.new ≡ encrypted_from (set_from p) public.now message.now noise.now work.old }
{
    let mut list = [0u32; WORDS];
    shared_products::prepare(p, public, work, &mut list);
    write_each(p, public, message, noise, Some(&list), ciphertext, work);
}

// The whole ciphertext, the way that fits the set. A short list is kept apart, so that clearing it stays small beside the products.
pub fn write_elements(
    p: Parameters,
    public: &[u8],
    message: &[u8],
    noise: &[u8],
    ciphertext: &mut [u8],
    work: &mut [u32],
)
    requires { Encrypting (set_from p) public.now noise.now work.old × (length ciphertext.old ≡ ciphertext_length (set_from p)) }
    ensures { ciphertext.new ≡ encrypted_from (set_from p) public.now message.now noise.now work.old }
{
    let words = 2 * monomials::monomial_count(p.set.dx) * (p.set.n as usize);
    if p.set.dx != p.set.dr || words > 24576 {
        write_each(p, public, message, noise, None, ciphertext, work);
    } else if words > 2048 {
        write_in::<24576>(p, public, message, noise, ciphertext, work);
    } else {
        write_in::<2048>(p, public, message, noise, ciphertext, work);
    }
}
