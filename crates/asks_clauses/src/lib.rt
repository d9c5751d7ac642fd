// The clause text of an ask under an accepted policy: refused as an ask is before the search, then if the buffer is too
// short, else written to its front.
#![tactic(auto)]

ghost use Rattle.std.specs.Prelude.{◌≡◌, List, ℕ, ◌+◌, ◌*◌, ◌%◌, ◌^◌, ◌≤◌, ◌<◌, ltb, length};
ghost use Rattle.model.specs.Tests.{pick};
ghost use Rattle.model.specs.Policy.{Policy};
ghost use Rattle.model.specs.Limits.{Others};
ghost use Rattle.model.specs.Line.{SESSIONS};
ghost use Rattle.model.specs.Dimacs.{text_of};
ghost use Rattle.model.specs.Run.{step_on, clauses_by, line_of};
ghost use Rattle.model.specs.Ranges.{InRange};
ghost use Rattle.reasons.specs.Numbers.{returned_by};
ghost use Rattle.exclusion_rows.specs.Table.{exclusions_of};
ghost use Rattle.policy_tables.specs.Held.{Holds};
ghost use Rattle.query_rank.specs.Objectives.{number_of};
ghost use Rattle.sets.specs.Words.{value, values};
ghost use Rattle.asks_request.specs.Refusals.{BoundedBy};
ghost use Rattle.asks.specs.Asks.{left_to, Searched};
ghost use Rattle.clauses.specs.Writing.{Written};
ghost use Rattle.asks_clauses.specs.Tells.{Tells};

use asks_request::request::{Request, Wanted, limited_refusal};
use clauses_hard::question::Question;
use clauses_lines::variables::Variables;
use ledger::bytes::line_of;
use limits_left::roles_left;
use model::Line;
use policy_tables::PolicyTables;
use query_reduced::exclusions::reduce;
use query_reduced::line_session::LineSession;
use reasons::{Reason, Refusal};
use sessions::given::UserSession;

// The length of the clause text of an ask on a line that meets every exclusion; it is written to the front of the
// buffer if it fits.
fn write_clauses(
    l: Line,
    tables: &PolicyTables,
    authorized: u64,
    who: UserSession,
    wanted: Wanted,
    out: &mut [u8],
) -> usize
    requires { (tables.now.head.roles ≤ 64) × (tables.now.head.permissions ≤ 256)
        × (who.session < SESSIONS) }
    ensures { (p : Policy) (x : Others) (ledger : List ℕ) → InRange p → p.head ≡ tables.now.head
        → Searched p who.user x ledger who.session (values tables.now.granted) tables.now.below authorized
        (exclusions_of tables.now.exclusions)
        → l ≡ line_of SESSIONS ledger who.user
        → Written out.old
        (text_of (left_to p who.user x l who.session) l who.session (value wanted.bounds.lower) (value wanted.bounds.upper)
        (number_of wanted.first) (number_of wanted.second))
        out.new result }
{
    let rows = tables_rows::carried::carried(&tables.grants(), 18446744073709551615);
    let at = LineSession {
        line: l,
        session: who.session as usize,
    };
    let reduced = reduce(&tables.exclusions, at);
    let head = tables.head;
    let lower = wanted.bounds.lower;
    let upper = wanted.bounds.upper;
    let variables = Variables {
        roles: head.roles as usize,
        permissions: head.permissions as usize,
    };
    let question = Question {
        variables,
        authorized,
        lower,
        upper,
        first: wanted.first,
        second: wanted.second,
    };
    clauses::whole::write(out, &rows, question, &reduced)
}

// 19 for a text that is longer than the buffer, else its length.
fn told(size: usize, room: usize) -> Result<u64, Refusal>
    ensures { returned_by result ≡ pick (ltb room size) 19 (256 * size % 2 ^ 64) }
{
    if room < size {
        return Err(Refusal::from(Reason::Room));
    }
    Ok(size as u64)
}

// The clause text of an ask, written to the front of the buffer; its length in bytes is the extra. Limits bar roles as
// in an ask.
pub fn ask_clauses(
    ledger: &[u8],
    tables: &PolicyTables,
    request: Request,
    out: &mut [u8],
) -> Result<u64, Refusal>
    requires { (tables.now.head.roles ≤ 64) × (tables.now.head.permissions ≤ 256) }
    ensures { (p : Policy) (lower upper : List ℕ) → InRange p → Holds tables.now p → BoundedBy request.bounds lower upper
        → Tells (step_on SESSIONS p ledger.now
        (clauses_by request.who.user request.who.session lower upper request.first request.second (length out.old)))
        (returned_by result) out.old out.new }
{
    let wanted = limited_refusal(ledger, tables, request, 40)?;
    let own = roles_left(ledger, tables, request.who);
    let room = out.len();
    let l = line_of(ledger, request.who.user as usize);
    let size = write_clauses(l, tables, own, request.who, wanted, out);
    told(size, room)
}
