// Runs roomsheet over a reader and a writer, with buffers that the caller lends. A read that fails ends the input, and a write that fails is
// passed over: the papers leave both free. Where none failed, what is written is the definitions' roomsheet of what there was to read.
#![tactic(auto)]

ghost use Rattle.std.specs.Prelude.{◌≡◌, false, ◌+◌, ◌≤◌, ◌<◌, length, take, drop, IfSome};
ghost use Rattle.std.specs.Io.KnownBytes.{Appends, Consumes, IsAtEnd};
ghost use Rattle.definitions.specs.Roomsheet.{roomsheet};
ghost use Rattle.roomsheet_run.specs.Kept.{KeptLine, ReadSome, AnsweredInto};

use std::io::{Read, Write};

// Where a run reads from and writes to, and whether a read or a write failed, or the turns ran out.
#[derive(Drop)]
pub struct Streams<R, W> {
    from: R,
    to: W,
    pub failed: bool,
}

impl<R: Read, W: Write> Streams<R, W> {
    pub fn new(from: R, to: W) -> Self
        ensures from { result.from ≡ from }
        ensures to { result.to ≡ to }
        ensures failed { result.failed ≡ false }
    {
        Streams {
            from,
            to,
            failed: false,
        }
    }

    // Reads octets, and answers how many came: none at the end, or where the read fails.
    fn read(&mut self, place: &mut [u8]) -> usize
        requires { 0 < length place.old }
        ensures within { result ≤ length place.new }
        ensures to { self.new.to ≡ self.old.to }
        ensures read { self.new.failed ≡ false → (self.old.failed ≡ false) × Consumes (R.remaining self.old.from) (R.remaining self.new.from) (take result place.new) × (result ≡ 0 → IsAtEnd (R.remaining self.new.from)) }
    {
        match self.from.read(place) {
            Ok(count) => count,
            Err(_) => {
                self.failed = true;
                0
            }
        }
    }

    // Writes octets; a write that fails is passed over.
    fn write(&mut self, octets: &[u8])
        ensures from { self.new.from ≡ self.old.from }
        ensures written { self.new.failed ≡ false → (self.old.failed ≡ false) × Appends (W.contents self.old.to) (W.contents self.new.to) octets.now }
    {
        if self.to.write_all(octets).is_err() {
            self.failed = true;
        }
    }
}

// Where a read of at most `most` octets behind those kept ends.
fn read_end(len: usize, kept: usize, most: usize) -> usize
    requires kept_lt_len { kept < len }
    requires most_nonzero { 0 < most }
    ensures { (kept < result) × (result ≤ len) }
{
    kept + most.min(len - kept)
}

// Reads up to `most` octets behind those kept, and answers how many came: none at the end, or where the read fails.
fn read_some<R: Read, W: Write>(
    streams: &mut Streams<R, W>,
    input: &mut [u8],
    kept: usize,
    most: usize,
) -> usize
    requires kept_in_bounds { kept < length input.old }
    requires most_nonzero { 0 < most }
    ensures kept { ReadSome input.old kept result input.new }
    ensures to { streams.new.to ≡ streams.old.to }
    ensures read { streams.new.failed ≡ false → (streams.old.failed ≡ false) × Consumes (R.remaining streams.old.from) (R.remaining streams.new.from) (take result (drop kept input.new)) × (result ≡ 0 → IsAtEnd (R.remaining streams.new.from)) }
{
    let end = read_end(input.len(), kept, most);
    streams.read(&mut input[kept..end])
}

// Answers all ended lines among the octets in front, and answers how many octets are kept of the rest.
fn answer_all<R: Read, W: Write>(
    streams: &mut Streams<R, W>,
    input: &mut [u8],
    mut have: usize,
    output: &mut [u8],
) -> usize
    requires have_in_bounds { have ≤ length input.old }
    requires output_room { 33 ≤ length output.old }
    ensures kept { KeptLine input.new result }
    ensures from { streams.new.from ≡ streams.old.from }
    ensures answered { streams.new.failed ≡ false → (streams.old.failed ≡ false) × AnsweredInto (take have input.old) (W.contents streams.old.to) (W.contents streams.new.to) (take result input.new) }
{
    loop {
        let chunk = roomsheet_lines::answer_chunk(input, have, output);
        streams.write(&output[..chunk.written]);
        have = chunk.kept;
        if chunk.done {
            return have;
        }
    }
}

// Reads to the end of the input, at most `most` octets at a time, and answers how many octets are kept of a last line without its end.
// A loop has to end, and nothing says that the input does: the turns are more than any run takes.
fn read_all<R: Read, W: Write>(
    streams: &mut Streams<R, W>,
    input: &mut [u8],
    most: usize,
    output: &mut [u8],
) -> usize
    requires input_room { 82 ≤ length input.old }
    requires most_nonzero { 0 < most }
    requires output_room { 33 ≤ length output.old }
    ensures kept { KeptLine input.new result }
    ensures answered { streams.new.failed ≡ false → IfSome (R.remaining streams.old.from) (λ octets. AnsweredInto octets (W.contents streams.old.to) (W.contents streams.new.to) (take result input.new)) }
{
    let mut kept = 0;
    for _ in 0..u64::MAX {
        let more = read_some(streams, input, kept, most);
        if more == 0 {
            return kept;
        }
        kept = answer_all(streams, input, kept + more, output);
    }
    streams.failed = true;
    kept
}

// Answers the whole input. The buffers hold at least an octet more than is kept of a line, and an answer.
pub fn run<R: Read, W: Write>(
    streams: &mut Streams<R, W>,
    input: &mut [u8],
    most: usize,
    output: &mut [u8],
)
    requires input_room { 82 ≤ length input.old }
    requires most_nonzero { 0 < most }
    requires output_room { 33 ≤ length output.old }
    ensures { streams.new.failed ≡ false → IfSome (R.remaining streams.old.from) (λ octets. Appends (W.contents streams.old.to) (W.contents streams.new.to) (roomsheet octets)) }
{
    let kept = read_all(streams, input, most, output);
    let written = roomsheet_lines::answer_last(&input[..kept], output);
    streams.write(&output[..written]);
}
