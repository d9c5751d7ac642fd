// The calls on a user's session, over byte slices: each reads its image first and is refused as the image is, and then
// goes by its policy. Each takes the judgement of its image apart itself, by `let .. else` (docs/ACCEPTANCE.md).
#![tactic(auto)]

ghost use Rattle.std.specs.Prelude.{◌≡◌, length};
ghost use Rattle.model.specs.Line.{SESSIONS};
ghost use Rattle.model.specs.Run.{step, open_by, close_by, show_by, ask_by, explain_by, clauses_by, returned};
ghost use Rattle.asks.specs.Asks.{Answers};
ghost use Rattle.sessions.specs.Calls.{Gives, Shows};
ghost use Rattle.asks_clauses.specs.Tells.{Tells};

use asks_request::bounds::bounds_of;
use asks_request::request::Request;
use policy_tables::PolicyTables;
use reasons::{refused, returned};
use sessions::given::UserSession;
use tables::read::read;

// Opens the user's lowest closed session.
pub fn open_session(image: &[u8], ledger: &mut [u8], user: u64) -> u64
    ensures { Gives (step SESSIONS image.now ledger.old (open_by user)) result ledger.new }
{
    let mut policy = PolicyTables::new();
    let outcome = read(image, &mut policy);
    let Ok(()) = outcome else {
        return refused(outcome);
    };
    returned(sessions_change::open::open_session(ledger, &policy, user))
}

// Closes the user's session.
pub fn close_session(image: &[u8], ledger: &mut [u8], user: u64, session: u64) -> u64
    ensures { Gives (step SESSIONS image.now ledger.old (close_by user session)) result ledger.new }
{
    let mut policy = PolicyTables::new();
    let outcome = read(image, &mut policy);
    let Ok(()) = outcome else {
        return refused(outcome);
    };
    let who = UserSession { user, session };
    refused(sessions_change::close::close_session(ledger, &policy, who))
}

// Shows the active roles of the user's session and the permissions that they carry.
pub fn show_session(image: &[u8], ledger: &[u8], user: u64, session: u64, answer: &mut [u8]) -> u64
    ensures { Shows (step SESSIONS image.now ledger.now
        (show_by user session (length answer.old))) result answer.old answer.new }
{
    let mut policy = PolicyTables::new();
    let outcome = read(image, &mut policy);
    let Ok(()) = outcome else {
        return refused(outcome);
    };
    let who = UserSession { user, session };
    refused(sessions_show::show::show_session(ledger, &policy, who, answer))
}

// Explains through which roles the active ones of the user's session carry the permission.
pub fn explain_session(image: &[u8], ledger: &[u8], user: u64, session: u64, permission: u64) -> u64
    ensures { result ≡ returned (step SESSIONS image.now ledger.now (explain_by user session permission)).reply }
{
    let mut policy = PolicyTables::new();
    let outcome = read(image, &mut policy);
    let Ok(()) = outcome else {
        return refused(outcome);
    };
    let who = UserSession { user, session };
    returned(sessions_show::explain::explain_session(ledger, &policy, who, permission))
}

// Asks for roles in the user's session.
pub fn ask_roles(
    image: &[u8],
    ledger: &mut [u8],
    who: UserSession,
    lower: &[u8],
    upper: &[u8],
    first: u64,
    second: u64,
    answer: &mut [u8],
) -> u64
    ensures { Answers (step SESSIONS image.now ledger.old
        (ask_by who.user who.session lower.now upper.now first second (length answer.old)))
        result ledger.new answer.old answer.new }
{
    let mut policy = PolicyTables::new();
    let outcome = read(image, &mut policy);
    let Ok(()) = outcome else {
        return refused(outcome);
    };
    let bounds = bounds_of(lower, upper);
    let request = Request {
        who,
        bounds,
        first,
        second,
    };
    refused(asks::ask::ask_roles(ledger, &policy, request, answer))
}

// Writes an ask as weighted clauses to the front of the buffer.
pub fn ask_clauses(
    image: &[u8],
    ledger: &[u8],
    who: UserSession,
    lower: &[u8],
    upper: &[u8],
    first: u64,
    second: u64,
    out: &mut [u8],
) -> u64
    ensures { Tells (step SESSIONS image.now ledger.now
        (clauses_by who.user who.session lower.now upper.now first second (length out.old)))
        result out.old out.new }
{
    let mut policy = PolicyTables::new();
    let outcome = read(image, &mut policy);
    let Ok(()) = outcome else {
        return refused(outcome);
    };
    let bounds = bounds_of(lower, upper);
    let request = Request {
        who,
        bounds,
        first,
        second,
    };
    returned(asks_clauses::ask_clauses(ledger, &policy, request, out))
}
