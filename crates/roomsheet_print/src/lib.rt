// Writing roomsheet's answers (01, "roomsheet") into a buffer, each behind what it holds already. Nothing is refused: the caller sees to
// the room. The contracts cite the definitions' decimal_text and limits_text.
#![tactic(auto)]

ghost use Rattle.std.specs.Prelude.{◌≡◌, ◌≤◌, length};
ghost use Rattle.definitions.specs.Roomsheet.{decimal_length, decimal_text};

use parameters::SetLimits;

// The most octets that an answer takes: three numbers of 10 digits at most, two spaces and a newline.
pub const ANSWER_ROOM: usize = 33;

// The numbers below 2^32 from which on a number has one more digit.
const POWERS_OF_TEN: [u32; 9] = [
    10, 100, 1000, 10000, 100000, 1000000, 10000000, 100000000, 1000000000,
];

// How many digits a number has.
fn decimal_length(x: u32) -> usize
    ensures { result ≡ decimal_length x }
{
    // kept as a for: filter(..).count() branches at each power
    let mut digits = 1;
    for power in &POWERS_OF_TEN {
        if *power <= x {
            digits += 1;
        }
    }
    digits
}

// A number in decimal, over octets that are as many as its digits. They are written from the last to the first.
fn write_digits(octets: &mut [u8], x: u32)
    requires { length octets.old ≡ decimal_length x }
    ensures { octets.new ≡ decimal_text x }
{
    let mut rest = x;
    // kept by index: what iter_mut().rev() has written is not known after the loop
    for i in (0..octets.len()).rev() {
        octets[i] = b'0' + (rest % 10) as u8;
        rest /= 10;
    }
}

// A buffer, and how many octets were written to its front.
#[derive(Drop)]
pub struct Answers<'a> {
    out: &'a mut [u8],
    at: usize,
    ghost within: { at ≤ length out.now },
}

impl<'a> Answers<'a> {
    ghost use Rattle.std.specs.Prelude.{[], ◌∷◌, ◌+◌, ◌-◌, take};
    ghost use Rattle.definitions.specs.Refusals.{accepted};
    ghost use Rattle.definitions.specs.Roomsheet.{limits_text};
    ghost use Rattle.parameters.specs.Answers.{limits_from};
    ghost use Rattle.roomsheet_print.specs.Appended.{Appended};

    pub fn new(out: &'a mut [u8]) -> Answers<'a>
        ensures none { result.at ≡ 0 }
        ensures holds { result.out.now ≡ out.old }
        ensures same_reference { result.out.ghost_name ≡ out.entry.ghost_name }
    {
        Answers { out, at: 0 }
    }

    // The octets written.
    pub fn written(&self) -> &[u8]
        ensures { result.now ≡ take self.now.at self.now.out.now }
    {
        &self.out[..self.at]
    }

    // How many more octets there is room for.
    pub fn room(&self) -> usize
        ensures { result ≡ length self.now.out.now - self.now.at }
    {
        self.out.len() - self.at
    }

    pub fn put_octet(&mut self, c: u8)
        requires { self.old.at + 1 ≤ length self.old.out.now }
        ensures { Appended self.old self.new (c ∷ []) }
    {
        self.out[self.at] = c;
        self.at += 1;
    }

    pub fn put_number(&mut self, x: u32)
        requires { self.old.at + 10 ≤ length self.old.out.now }
        ensures { Appended self.old self.new (decimal_text x) }
    {
        let end = self.at + decimal_length(x);
        write_digits(&mut self.out[self.at..end], x);
        self.at = end;
    }

    // A space and a number.
    fn put_next(&mut self, x: u32)
        requires { self.old.at + 11 ≤ length self.old.out.now }
        ensures { Appended self.old self.new (32 ∷ decimal_text x) }
    {
        self.put_octet(b' ');
        self.put_number(x);
    }

    // 0, the bound and the headroom.
    pub fn put_limits(&mut self, limits: SetLimits)
        requires { self.old.at + 32 ≤ length self.old.out.now }
        ensures { Appended self.old self.new (limits_text (accepted (limits_from limits))) }
    {
        self.put_number(0);
        self.put_next(limits.bound);
        self.put_next(limits.headroom);
    }
}
