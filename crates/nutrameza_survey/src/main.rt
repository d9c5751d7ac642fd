// The survey: a policy image from the file `policy.img`, a script from standard input; a line for each exclusion, and a
// line for each number that the answers have. Module `input` reads the script. Where it can't be read to its end,
// nothing is printed.
#![tactic(auto)]

mod input;

use script_input::failure::say;
use script_text::Writer;

// Writes the survey; where it can't be written, says why on standard error.
fn write_survey(rt: &(impl Print + Eprint), text: &[u8]) {
    if let Err(e) = rt.write_all(text) {
        say(rt, "nutrameza_survey: standard output can't be written", e);
    }
}

fn main(rt: HostRuntime) {
    let mut file = [0u8; 16385];
    let size = script_input::file::read_image(&rt, &mut file);
    let image = &file[..size];
    let mut out = [0u8; 16384];
    let mut text = Writer {
        out: &mut out,
        at: 0,
    };
    let accepted = survey_exclusions::exclusions::put_opening(image, &mut text);
    if !accepted {
        write_survey(&rt, text.written());
        return;
    }
    let mut ledger = [0u8; script_input::lines::LEDGER];
    let used = script_input::lines::ledger_length(image);
    let mut counts = [0u64; 256];
    let mut input = rt.stdin();
    match input::count_all(&mut input, image, &mut ledger[..used], &mut counts) {
        Ok(true) => {
            survey_counts::counts::put_counts(&mut text, &counts);
            write_survey(&rt, text.written());
        }
        Ok(false) => {}
        Err(e) => say(&rt, "nutrameza_survey: standard input can't be read", e),
    }
}
