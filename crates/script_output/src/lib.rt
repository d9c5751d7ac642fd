// The output line of a call, from what the call returns to a host.
#![tactic(auto)]

ghost use Rattle.std.specs.Prelude.{◌≡◌, ◌+◌, ◌/◌, ◌%◌, ◌≤◌, length, take, drop};
ghost use Rattle.model.specs.Bytes.{number as number_of};
ghost use Rattle.model_script.specs.Script.{line_of};
ghost use Rattle.script_text.specs.Writing.{Writes};

use script_text::Writer;

// Writes the line of call n: the number and the extra that the call returned in one, and the 40 bytes that it left in
// the answer buffer.
pub fn put_returned(text: &mut Writer, n: u64, code: u64, answer: &[u8; 40])
    requires { text.old.at + 160 ≤ length text.old.out.now }
    ensures { (Writes text.old text.new
        (line_of n (code % 256) (code / 256) (number_of (take 8 answer.now)) (number_of (drop 8 answer.now))))
        × (text.new.at ≤ text.old.at + 160) }
{
    script_text_lines::put_line(text, n, code % 256, code / 256, answer);
}
