// The program: a policy image from the file `policy.img`, a script from standard input, and for each line of it one
// line out. Module `input` reads and writes.
#![tactic(auto)]

mod input;

fn main(rt: HostRuntime) {
    let mut file = [0u8; 16385];
    let size = script_input::file::read_image(&rt, &mut file);
    let image = &file[..size];
    let mut ledger = [0u8; script_input::lines::LEDGER];
    let used = script_input::lines::ledger_length(image);
    let mut input = rt.stdin();
    if let Err(failure) = input::answer_all(&rt, &mut input, image, &mut ledger[..used]) {
        failure.tell(&rt);
    }
}
