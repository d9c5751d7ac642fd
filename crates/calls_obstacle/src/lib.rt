// What stands in the way of an ask, over byte slices: the image is read first, and the call is refused as the image is,
// or goes by its policy, by `let .. else` as each call (docs/ACCEPTANCE.md).
#![tactic(auto)]

ghost use Rattle.std.specs.Prelude.{length};
ghost use Rattle.model.specs.Line.{SESSIONS};
ghost use Rattle.model.specs.Run.{step, obstacle_by};
ghost use Rattle.sessions.specs.Calls.{Shows};

use asks_request::bounds::bounds_of;
use asks_request::request::Request;
use policy_tables::PolicyTables;
use reasons::{refused, returned};
use sessions::given::UserSession;
use tables::read::read;

// Tells what stands in the way of an ask in the user's session.
pub fn tell_obstacle(
    image: &[u8],
    ledger: &[u8],
    user: u64,
    session: u64,
    lower: &[u8],
    upper: &[u8],
    roles: &mut [u8],
) -> u64
    ensures { Shows (step SESSIONS image.now ledger.now
        (obstacle_by user session lower.now upper.now (length roles.old)))
        result roles.old roles.new }
{
    let mut policy = PolicyTables::new();
    let outcome = read(image, &mut policy);
    let Ok(()) = outcome else {
        return refused(outcome);
    };
    let who = UserSession { user, session };
    let bounds = bounds_of(lower, upper);
    let request = Request {
        who,
        bounds,
        first: 0,
        second: 0,
    };
    returned(asks_obstacle::ask_obstacle(ledger, &policy, request, roles))
}
