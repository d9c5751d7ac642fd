// Closing a session under an accepted policy.
ghost use Rattle.model.specs.Line.{SESSIONS};
ghost use Rattle.model.specs.Policy.{Policy};
ghost use Rattle.model.specs.Run.{step_on, close_by};
ghost use Rattle.reasons.specs.Numbers.{refusal_of};
ghost use Rattle.sessions.specs.Calls.{KnownBy, Gives};

use ledger::bytes::{line_of, put_line};
use ledger_change::closed;
use policy_tables::PolicyTables;
use reasons::Refusal;
use sessions::first::{first_refusal, session_refusal};
use sessions::given::UserSession;

// The user's session is closed; the user's history stays.
pub fn close_session(
    ledger: &mut [u8],
    tables: &PolicyTables,
    who: UserSession,
) -> Result<(), Refusal>
    ensures { (p : Policy) → KnownBy tables.now p
        → Gives (step_on SESSIONS p ledger.old (close_by who.user who.session)) (refusal_of result) ledger.new }
{
    let session = who.session;
    first_refusal(ledger, tables, who.user)?;
    let u = who.user as usize;
    let l = line_of(ledger, u);
    session_refusal(l, session)?;
    put_line(ledger, u, closed(l, session as usize));
    Ok(())
}
