// The short ask over byte slices: an ask for the fewest permissions, then the fewest roles.
#![tactic(auto)]

ghost use Rattle.std.specs.Prelude.{length};
ghost use Rattle.model.specs.Line.{SESSIONS};
ghost use Rattle.model.specs.Run.{step, short_ask_by};
ghost use Rattle.asks.specs.Asks.{Answers};

use calls_session::ask_roles;
use sessions::given::UserSession;

// An ask for the fewest permissions, then the fewest roles.
pub fn short_ask(
    image: &[u8],
    ledger: &mut [u8],
    user: u64,
    session: u64,
    lower: &[u8],
    upper: &[u8],
    answer: &mut [u8],
) -> u64
    ensures { Answers (step SESSIONS image.now ledger.old
        (short_ask_by user session lower.now upper.now (length answer.old)))
        result ledger.new answer.old answer.new }
{
    let who = UserSession { user, session };
    ask_roles(image, ledger, who, lower, upper, 1, 1, answer)
}
