// What a program says on standard error where it can't go on.
use std::fmt::InlineText;
use std::io;

// Says what failed and why, in the system's words alone: without the error's number, which std puts behind them.
pub fn say(rt: &impl Eprint, what: &str, error: io::Error) {
    let text = InlineText::<256>::of(error);
    let said = text.as_str();
    let reason = match said.split_once(" (os error ") {
        Some((words, _)) => words,
        None => said,
    };
    let _ = eprintln!(rt; "{what}: {reason}");
}
