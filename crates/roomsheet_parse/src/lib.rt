// Reading roomsheet's text (01, "roomsheet", with 02, Q-7): where a line ends, how many numbers it has and which, without sign or needless
// leading zero and at most 4,294,967,295. How many a line is to have is the caller's business. The contracts cite the definitions' is_number,
// and specs/Numbers.antt, which rests on is_number, decimal, well_formed and numbers_of.
#![tactic(auto)]

ghost use Rattle.std.specs.Prelude.{◌≡◌, ◌+◌, ◌≤◌, length, drop};
ghost use Rattle.definitions.specs.Roomsheet.{is_number};
ghost use Rattle.roomsheet_parse.specs.Parts.{up_to};
ghost use Rattle.roomsheet_parse.specs.Numbers.{digits_fit, Finds, NumbersRead};

// A number of a line, and the place past it.
#[derive(Clone, Copy)]
pub struct Number {
    pub value: u32,
    pub next: usize,
}

const SPACE: u8 = b' ';

const NEWLINE: u8 = b'\n';

const ZERO: u8 = b'0';

const NINE: u8 = b'9';

const NUMBER_MOST: u64 = 4294967295;

pub const LINE_MOST: usize = 80;

// The place of the first newline at or after from; the text's length where there is none.
pub fn find_newline(text: &[u8], from: usize) -> usize
    requires { from ≤ length text.now }
    ensures { result ≡ from + length (up_to 10 (drop from text.now)) }
{
    let rest = &text[from..];
    from + rest
        .iter()
        .position(|c| *c == NEWLINE)
        .unwrap_or(rest.len())
}

// The digits from a place to the next space or the end, and the number that they write.
fn read_digits(line: &[u8], from: usize) -> Option<Number>
    requires { from ≤ length line.now }
    ensures { Finds digits_fit line.now from result }
{
    let mut value = 0u64;
    for i in from..line.len() {
        let c = line[i];
        if c == SPACE {
            return Some(Number {
                value: value as u32,
                next: i,
            });
        }
        if c < ZERO {
            return None;
        }
        if NINE < c {
            return None;
        }
        value = 10 * value + ((c - ZERO) as u64);
        if NUMBER_MOST < value {
            return None;
        }
    }
    Some(Number {
        value: value as u32,
        next: line.len(),
    })
}

// The number at a place: digits up to the next space or the end, at least one, and the first of several above zero.
pub fn parse_number(line: &[u8], from: usize) -> Option<Number>
    requires { from ≤ length line.now }
    ensures { Finds is_number line.now from result }
{
    let number = read_digits(line, from)?;
    if number.next == from {
        return None;
    }
    if number.next == from + 1 {
        return Some(number);
    }
    if line[from] <= ZERO {
        return None;
    }
    Some(number)
}

// How many numbers a line has, with one space between, in at most 80 octets: they go to the front of `numbers`, in one reading. None where
// the line is malformed, or has more numbers than there is room for.
pub fn parse_numbers(line: &[u8], numbers: &mut [u32]) -> Option<usize>
    ensures { NumbersRead (length numbers.old) line.now result numbers.new }
{
    if LINE_MOST < line.len() {
        return None;
    }
    let mut at = 0;
    for count in 0..numbers.len() {
        let Number { value, next } = parse_number(line, at)?;
        numbers[count] = value;
        if next == line.len() {
            return Some(count + 1);
        }
        at = next + 1;
    }
    None
}
