// A script's lines answered: the call that a line is made under an image and on a ledger, and its answer written as an
// output line.
#![tactic(auto)]

ghost use Rattle.std.specs.Prelude.{◌≡◌, ◌+◌, ◌≤◌, ◌<◌, length};
ghost use Rattle.model_script.specs.Script.{answer_to, printed};
ghost use Rattle.script_text.specs.Writing.{Writes};

use script_text::Writer;

// Answers a line of a script: makes its call, and returns the number of the answer.
pub fn answer(image: &[u8], ledger: &mut [u8], line: &[u8]) -> u64
    ensures { (result ≡ (answer_to image.now ledger.old line.now).reply.number)
        × (result < 256)
        × (ledger.new ≡ (answer_to image.now ledger.old line.now).ledger) }
{
    let parsed = script_parse::parse::parse(line);
    let mut answer = [0u8; 40];
    let code = script_calls::call(image, ledger, parsed, &mut answer);
    code % 256
}

// Answers line n of a script: makes its call, and writes the output line.
pub fn respond(image: &[u8], ledger: &mut [u8], line: &[u8], n: u64, text: &mut Writer)
    requires { text.old.at + 160 ≤ length text.old.out.now }
    ensures { (Writes text.old text.new (printed n (answer_to image.now ledger.old line.now).reply))
        × (text.new.at ≤ text.old.at + 160)
        × (ledger.new ≡ (answer_to image.now ledger.old line.now).ledger) }
{
    let parsed = script_parse::parse::parse(line);
    let mut answer = [0u8; 40];
    let code = script_calls::call(image, ledger, parsed, &mut answer);
    script_output::put_returned(text, n, code, &answer);
}
