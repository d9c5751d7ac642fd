// What refuses an ask before any role set is looked for: the refusals 9 to 19.
ghost use Rattle.std.specs.Prelude.{◌≡◌, IfOk};
ghost use Rattle.model.specs.Line.{SESSIONS};
ghost use Rattle.model.specs.Policy.{Policy};
ghost use Rattle.sessions.specs.Calls.{KnownBy};
ghost use Rattle.sets.specs.Words.{value};
ghost use Rattle.reasons.specs.Numbers.{fault_of, refusal_of};
ghost use Rattle.asks_request.specs.Refusals.{sized_of, lower_of, upper_of, bounds_refusal as bounds_refusal_of, query_refusal as query_refusal_of, ask_refusal as ask_refusal_of, limited_refusal as limited_refusal_of};
ghost use Rattle.asks_request.specs.Wishes.{Wants};

use crate::bounds::Bounds;
use ledger::bytes::line_of;
use policy_tables::PolicyTables;
use query_rank::objective::Objective;
use reasons::{Reason, Refusal};
use sessions::first::{first_refusal, session_refusal};
use sessions::given::UserSession;
use sets::counted::Counted;

// An ask, as a host makes it: the session of a user, the bounds where both are 32 bytes long, and the numbers of the
// objectives (01: aims) on permissions and on roles. These are read late: the clauses `refused` have 9 to 17 before 18.
#[derive(Clone, Copy)]
pub struct Request {
    pub who: UserSession,
    pub bounds: Option<Bounds>,
    pub first: u64,
    pub second: u64,
}

// What is asked for: the bounds as sets, and the objectives on permissions and on roles.
#[derive(Clone, Copy)]
pub struct Wanted {
    pub bounds: Bounds,
    pub first: Objective,
    pub second: Objective,
}

// What is asked for within these bounds, or what refuses it: 16 for a bound with a permission that the policy does not
// have, 17 for a lower bound that is not within the upper, 18 for an objective that there is not, 19 for an answer
// buffer of another length.
fn bounds_refusal(
    bounds: Bounds,
    permissions: u16,
    request: Request,
    room: usize,
) -> Result<Wanted, Reason>
    ensures refused { fault_of result ≡ bounds_refusal_of permissions (value bounds.lower) (value bounds.upper) request.first request.second room }
    ensures given { IfOk result (Wants (Some bounds) request.first request.second) }
{
    if !bounds.lower.below(permissions) || !bounds.upper.below(permissions) {
        return Err(Reason::Permission);
    }
    if !sets::perm_within(bounds.lower, bounds.upper) {
        return Err(Reason::Bounds);
    }
    let first = Objective::try_from(request.first)?;
    let second = Objective::try_from(request.second)?;
    if room != 40 {
        return Err(Reason::Room);
    }
    Ok(Wanted {
        bounds,
        first,
        second,
    })
}

// The same of the bounds of a request, or 15 where they are not 32 bytes long.
fn query_refusal(request: Request, permissions: u16, room: usize) -> Result<Wanted, Reason>
    ensures refused { fault_of result
        ≡ query_refusal_of permissions (sized_of request.bounds) (lower_of request.bounds) (upper_of request.bounds) request.first
        request.second room }
    ensures given { IfOk result (Wants request.bounds request.first request.second) }
{
    let Some(bounds) = request.bounds else {
        return Err(Reason::Set);
    };
    bounds_refusal(bounds, permissions, request, room)
}

// What an ask asks for, or the first of the refusals 9 to 19 that holds for it.
pub fn ask_refusal(
    ledger: &[u8],
    tables: &PolicyTables,
    request: Request,
    room: usize,
) -> Result<Wanted, Reason>
    ensures refused { (p : Policy) → KnownBy tables.now p
        → fault_of result ≡ ask_refusal_of SESSIONS p ledger.now request.who.user request.who.session (sized_of request.bounds)
        (lower_of request.bounds) (upper_of request.bounds) request.first request.second room }
    ensures given { IfOk result (Wants request.bounds request.first request.second) }
{
    first_refusal(ledger, tables, request.who.user)?;
    let line = line_of(ledger, request.who.user as usize);
    session_refusal(line, request.who.session)?;
    query_refusal(request, tables.head.permissions, room)
}

// The same under limits: a line that is not sound refuses it after 9 and 10 and before 12, whosever it is.
pub fn limited_refusal(
    ledger: &[u8],
    tables: &PolicyTables,
    request: Request,
    room: usize,
) -> Result<Wanted, Refusal>
    ensures refused { (p : Policy) → KnownBy tables.now p
        → p.limits ≡ tables.now.limits
        → refusal_of result ≡ limited_refusal_of SESSIONS p ledger.now request.who.user request.who.session (sized_of request.bounds)
        (lower_of request.bounds) (upper_of request.bounds) request.first request.second room }
    ensures given { IfOk result (Wants request.bounds request.first request.second) }
{
    limits_lines::lines::refusal(ledger, tables, request.who.user)?;
    Ok(ask_refusal(ledger, tables, request, room)?)
}
