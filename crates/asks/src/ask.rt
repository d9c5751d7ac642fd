// Asking for roles under an accepted policy.
ghost use Rattle.std.specs.Prelude.{◌≡◌, List, ℕ, ◌+◌, ◌*◌, ◌≤◌, ◌<◌, length};
ghost use Rattle.model.specs.Policy.{Policy};
ghost use Rattle.model.specs.Limits.{Others};
ghost use Rattle.model.specs.Line.{SESSIONS, line_size};
ghost use Rattle.model.specs.Choice.{choose};
ghost use Rattle.model.specs.Run.{step_on, ask_by, line_of};
ghost use Rattle.sets.specs.Words.{value, values};
ghost use Rattle.query.specs.Carry.{rows_of};
ghost use Rattle.query_rank.specs.Objectives.{number_of, Stands};
ghost use Rattle.search.specs.Answer.{answered};
ghost use Rattle.reasons.specs.Numbers.{fault_of, refusal_of};
ghost use Rattle.exclusion_rows.specs.Table.{exclusions_of};
ghost use Rattle.policy_tables.specs.Held.{Holds};
ghost use Rattle.asks_request.specs.Refusals.{BoundedBy};
ghost use Rattle.asks.specs.Asks.{left_to, Asked, Searched, asked_on, Answers};

use asks_request::request::{Request, Wanted, limited_refusal};
use exclusion_rows::ExclusionTable;
use ledger::bytes::{line_of, put_line};
use ledger_change::put_in;
use limits_left::roles_left;
use policy_tables::PolicyTables;
use query_rank::Job;
use query_reduced::exclusions::reduce;
use query_reduced::line_session::LineSession;
use reasons::{Reason, Refusal};
use search_steps::Query;
use sessions::answer::fill;
use sessions::given::UserSession;

// The best admissible role set for a session of a line that meets every exclusion, by the rows of the roles that the
// user may activate; the best by each two numbers that stand for the objectives.
pub fn best(
    rows: &[[u64; 4]; 64],
    authorized: u64,
    xs: &ExclusionTable,
    at: LineSession,
    wanted: Wanted,
) -> Option<u64>
    ensures { (p : Policy) (u : ℕ) (x : Others) (first second : ℕ)
        → Stands wanted.first first
        → Stands wanted.second second
        → Asked p u x at.line at.session authorized (exclusions_of xs.now) (rows_of rows.now)
        → answered result ≡ choose (left_to p u x at.line at.session) at.line at.session (value wanted.bounds.lower)
        (value wanted.bounds.upper) first second }
{
    let reduced = reduce(xs, at);
    let lower = wanted.bounds.lower;
    let job = Job {
        lower,
        first: wanted.first,
        second: wanted.second,
    };
    let query = Query {
        rows,
        exclusions: reduced.list(),
        job,
    };
    search::solve(&query, wanted.bounds.upper, authorized)
}

// The best admissible role set takes the place of the active roles of the session, on a line that meets every
// exclusion, and fills the answer; 20 where no set is admissible. That the line is there is a clause, as at `put_line`.
fn put_best(
    ledger: &mut [u8],
    tables: &PolicyTables,
    authorized: u64,
    who: UserSession,
    wanted: Wanted,
    answer: &mut [u8],
) -> Result<(), Reason>
    requires { (line_size SESSIONS * who.user + line_size SESSIONS ≤ length ledger.old) × (who.session < SESSIONS) × (length answer.old ≡ 40) }
    ensures { (p : Policy) (x : Others)
        → Searched p who.user x ledger.old who.session (values tables.now.granted) tables.now.below authorized
        (exclusions_of tables.now.exclusions)
        → Answers (asked_on p ledger.old who.user who.session
        (choose (left_to p who.user x (line_of SESSIONS ledger.old who.user) who.session) (line_of SESSIONS ledger.old who.user)
        who.session (value wanted.bounds.lower) (value wanted.bounds.upper) (number_of wanted.first) (number_of wanted.second)))
        (fault_of result) ledger.new answer.old answer.new }
{
    let rows = tables_rows::carried::carried(&tables.grants(), authorized);
    let u = who.user as usize;
    let at = LineSession {
        line: line_of(ledger, u),
        session: who.session as usize,
    };
    let Some(s) = best(&rows, authorized, &tables.exclusions, at, wanted) else {
        return Err(Reason::NoRoles);
    };
    put_line(ledger, u, put_in(at.line, at.session, s));
    fill(answer, s, query::carry::carried_by(&rows, s));
    Ok(())
}

// The best admissible role set takes the place of the session's active roles and fills the answer. Limits bar roles,
// and under them every line is to be sound; without a limit no other line is looked at.
pub fn ask_roles(
    ledger: &mut [u8],
    tables: &PolicyTables,
    request: Request,
    answer: &mut [u8],
) -> Result<(), Refusal>
    ensures { (p : Policy) (lower upper : List ℕ) → Holds tables.now p → BoundedBy request.bounds lower upper
        → Answers (step_on SESSIONS p ledger.old
        (ask_by request.who.user request.who.session lower upper request.first request.second (length answer.old)))
        (refusal_of result) ledger.new answer.old answer.new }
{
    let wanted = limited_refusal(ledger, tables, request, answer.len())?;
    let own = roles_left(ledger, tables, request.who);
    Ok(put_best(ledger, tables, own, request.who, wanted, answer)?)
}
