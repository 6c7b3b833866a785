// The lines of a text, answered as 01, "roomsheet", with 02, Q-7, says, however the text is cut: the ended lines in front of a buffer are
// answered as far as there is room, what is left is kept for the next read, and a last line may lack its newline. A line is six numbers, a
// set in edition 1, or seven, the last of which is the edition; any other is malformed, refusal 11. Refusals are text here, as roomsheet
// prints them. The contracts cite the definitions' line_answer and roomsheet; proofs/Texts.antt shows that a whole run prints roomsheet of
// the whole input.
#![tactic(auto)]

ghost use Rattle.std.specs.Prelude.{◌≡◌, ◌||◌, [], ◌∷◌, ◌++◌, ◌+◌, ◌≤◌, length, take, IsTrue, SomeIff, option_map};
ghost use Rattle.definitions.specs.Parameters.{limits_answer};
ghost use Rattle.definitions.specs.Roomsheet.{well_formed, numbers_of, set_of, limits_text, line_answer, roomsheet};
ghost use Rattle.definitions.specs.Editions.{in_edition};
ghost use Rattle.parameters.specs.Answers.{numbers_from};
ghost use Rattle.roomsheet_parse.specs.Parts.{Without};
ghost use Rattle.roomsheet_print.specs.Appended.{Appended};
ghost use Rattle.roomsheet_lines.specs.Answered.{LinesAnswered, Keeps, ChunkAnswered};

use parameters::refusals::Refusal;
use parameters::{Parameters, SetNumbers};
use roomsheet_print::Answers;

// How far the ended lines of a text were answered; done where none is left. (Kept with a flag: the numbers hold whether it is set or not.)
#[derive(Clone, Copy)]
pub struct Lines {
    pub used: usize,
    pub written: usize,
    pub done: bool,
}

// The edition of a line of six numbers.
const FIRST_EDITION: u32 = 1;

// The set that the first six words of a line name, in an edition; the seventh word is not looked at.
#[tactic(auto, unfolding(definitions::specs::Roomsheet::set_of))]
fn set_of(words: [u32; 7], edition: u32) -> SetNumbers
    ensures { numbers_from result ≡ in_edition edition (set_of words) }
{
    let [l, q, n, dx, dr, mlen, _] = words;
    SetNumbers {
        l,
        q,
        n,
        dx,
        dr,
        mlen,
        edition,
    }
}

// The set that a line names; None where it is malformed.
fn read_set(line: &[u8]) -> Option<SetNumbers>
    ensures { SomeIff (option_map numbers_from result) (IsTrue (well_formed 6 line.now || well_formed 7 line.now)) (set_of (numbers_of line.now)) }
{
    let mut words = [0u32; 7];
    match roomsheet_parse::parse_numbers(line, &mut words)? {
        6 => Some(set_of(words, FIRST_EDITION)),
        7 => Some(set_of(words, words[6])),
        _ => None,
    }
}

// The answer to a set: its limits, or the refusal.
fn put_set(answers: &mut Answers, set: SetNumbers)
    requires { answers.old.at + 32 ≤ length answers.old.out.now }
    ensures { Appended answers.old answers.new (limits_text (limits_answer (numbers_from set))) }
{
    match Parameters::new(set) {
        Ok(p) => answers.put_limits(parameters::limits(p)),
        Err(refusal) => answers.put_number(u32::from(refusal)),
    }
}

// The answer to a line: that of the set that its numbers name, or 11 where it is malformed.
fn put_answer(answers: &mut Answers, line: &[u8])
    requires { answers.old.at + 32 ≤ length answers.old.out.now }
    ensures { Appended answers.old answers.new (line_answer line.now) }
{
    match read_set(line) {
        Some(set) => put_set(answers, set),
        None => answers.put_number(u32::from(Refusal::Line)),
    }
}

// The answer to a line and a newline.
fn answer_line(answers: &mut Answers, line: &[u8])
    requires { answers.old.at + 33 ≤ length answers.old.out.now }
    ensures { Appended answers.old answers.new (line_answer line.now ++ (10 ∷ [])) }
{
    put_answer(answers, line);
    answers.put_octet(b'\n');
}

// Answers the ended lines of a text, as far as there is room.
fn answer_lines(text: &[u8], out: &mut [u8]) -> Lines
    ensures { LinesAnswered text.now result out.new }
{
    let mut answers = Answers::new(out);
    let mut used = 0;
    while roomsheet_print::ANSWER_ROOM <= answers.room() {
        let end = roomsheet_parse::find_newline(text, used);
        if end == text.len() {
            return Lines {
                used,
                written: answers.written().len(),
                done: true,
            };
        }
        answer_line(&mut answers, &text[used..end]);
        used = end + 1;
    }
    Lines {
        used,
        written: answers.written().len(),
        done: false,
    }
}

// How far the text in front of a buffer was answered; the octets kept of it stand there now. Done where no ended line is left. (Kept with a
// flag, as Lines.)
#[derive(Clone, Copy)]
pub struct Chunk {
    pub kept: usize,
    pub written: usize,
    pub done: bool,
}

// A line that has this many octets is malformed, whatever follows: no more of it is kept.
const KEPT_MOST: usize = 81;

// How many octets are kept of the rest: of a line without its end, no more than show it malformed.
fn kept_of(rest: usize, done: bool) -> usize
    ensures { Keeps done rest result }
{
    if done { rest.min(KEPT_MOST) } else { rest }
}

// Answers the ended lines of the text in front of a buffer, and moves what is left of it to the front.
pub fn answer_chunk(text: &mut [u8], have: usize, out: &mut [u8]) -> Chunk
    requires { have ≤ length text.old }
    ensures { ChunkAnswered (take have text.old) result text.new out.new }
{
    let Lines {
        used,
        written,
        done,
    } = answer_lines(&text[..have], out);
    let kept = kept_of(have - used, done);
    text.copy_within(used..used + kept, 0);
    Chunk {
        kept,
        written,
        done,
    }
}

// Answers a last line that has no newline; one that is empty counts for nothing.
pub fn answer_last(text: &[u8], out: &mut [u8]) -> usize
    requires room { 33 ≤ length out.old }
    requires without { Without 10 text.now }
    ensures within { result ≤ length out.new }
    ensures answered { take result out.new ≡ roomsheet text.now }
{
    if text.is_empty() {
        return 0;
    }
    let mut answers = Answers::new(out);
    answer_line(&mut answers, text);
    answers.written().len()
}
