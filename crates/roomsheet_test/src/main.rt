// roomsheet on many lines, read 7 octets at a time into buffers that hold little more than a line and an answer.
#![tactic(auto)]

fn main(rt: HostRuntime) {
    let mut streams = roomsheet_run::Streams::new(rt.stdin(), rt.stdout());
    let mut input = [0u8; 88];
    let mut output = [0u8; 33];
    roomsheet_run::run(&mut streams, &mut input, 7, &mut output);
}
