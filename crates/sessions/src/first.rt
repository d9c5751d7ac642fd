// The first steps of a call on a line, once its image is accepted: the refusals 9 to 11, and of a call on a session 12
// and 13.
ghost use Rattle.std.specs.Prelude.{◌≡◌, ◌^◌, ◌<◌, get_or};
ghost use Rattle.model.specs.Line.{SESSIONS};
ghost use Rattle.model.specs.Policy.{Policy};
ghost use Rattle.reasons.specs.Numbers.{fault_of};
ghost use Rattle.sessions.specs.Calls.{KnownBy, first_refusal as first_refusal_of, session_refusal as session_refusal_of};

use ledger::bytes::LINE;
use ledger::plainly::sound_at;
use ledger_change::is_open;
use model::{Line, SESSIONS};
use policy_tables::PolicyTables;
use reasons::Reason;

// The roles that user u may activate, by the table of them.
pub fn roles_of(authorized: &[u64; 64], u: usize) -> u64
    requires { u < 64 }
    ensures { (result ≡ get_or authorized.now u 0) × (result < 2 ^ 64) }
{
    authorized[u]
}

// The ledger does not fit, the user has no line, or the line is not sound.
pub fn first_refusal(ledger: &[u8], tables: &PolicyTables, user: u64) -> Result<(), Reason>
    ensures { (p : Policy) → KnownBy tables.now p
        → fault_of result ≡ first_refusal_of SESSIONS p ledger.now user }
{
    let users = tables.head.users as usize;
    if ledger.len() != LINE * users {
        return Err(Reason::Ledger);
    }
    if users as u64 <= user {
        return Err(Reason::Person);
    }
    let u = user as usize;
    let own = roles_of(&tables.authorized, u);
    if !sound_at(ledger, u, tables.head.roles, own, &tables.exclusions) {
        return Err(Reason::Line);
    }
    Ok(())
}

// The line has no such session, or it is closed.
pub fn session_refusal(l: Line, session: u64) -> Result<(), Reason>
    ensures { fault_of result ≡ session_refusal_of SESSIONS l session }
{
    if SESSIONS as u64 <= session {
        return Err(Reason::Session);
    }
    if !is_open(l, session as usize) {
        return Err(Reason::Closed);
    }
    Ok(())
}
