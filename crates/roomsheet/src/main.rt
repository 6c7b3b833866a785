// The program roomsheet (01, "roomsheet", with 02, Q-7): for each line of standard input the bound and the headroom of its set, or the refusal.
#![tactic(auto)]

fn main(rt: HostRuntime) {
    let mut streams = roomsheet_run::Streams::new(rt.stdin(), rt.stdout());
    let mut input = [0u8; 65536];
    let mut output = [0u8; 65536];
    roomsheet_run::run(&mut streams, &mut input, 65536, &mut output);
}
