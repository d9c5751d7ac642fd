// The call that a parsed line is, made under an image and on a ledger.
#![tactic(auto)]

ghost use Rattle.std.specs.Prelude.{◌≡◌, length};
ghost use Rattle.asks.specs.Asks.{Answers};
ghost use Rattle.model_script.specs.Script.{answer_by};
ghost use Rattle.script_parse.specs.Reading.{call_in};

use nutrameza::{
    nutrameza_ask, nutrameza_close, nutrameza_open, nutrameza_short_ask, nutrameza_show,
};
use reasons::Reason;
use script_parse::Call;

// Makes the call that a line is; 21 for an unreadable line.
pub fn call(image: &[u8], ledger: &mut [u8], parsed: Option<Call>, answer: &mut [u8; 40]) -> u64
    ensures { Answers (answer_by image.now ledger.old (call_in parsed)) result ledger.new
        answer.old answer.new }
{
    let Some(call) = parsed else {
        return Reason::Script as u64;
    };
    match call {
        Call::Open { user } => nutrameza_open(image, ledger, user),
        Call::Close { user, session } => nutrameza_close(image, ledger, user, session),
        Call::Show { user, session } => nutrameza_show(image, ledger, user, session, answer),
        Call::ShortAsk {
            user,
            session,
            lower,
            upper,
        } => nutrameza_short_ask(image, ledger, user, session, &lower, &upper, answer),
        Call::Ask {
            user,
            session,
            lower,
            upper,
            first,
            second,
        } => nutrameza_ask(
            image, ledger, user, session, &lower, &upper, first, second, answer,
        ),
    }
}
