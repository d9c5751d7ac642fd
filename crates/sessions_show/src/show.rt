// Showing a session under an accepted policy.
ghost use Rattle.std.specs.Prelude.{◌≡◌, length};
ghost use Rattle.model.specs.Line.{SESSIONS};
ghost use Rattle.model.specs.Policy.{Policy, below_table};
ghost use Rattle.model.specs.Run.{step_on, show_by};
ghost use Rattle.sets.specs.Words.{values};
ghost use Rattle.reasons.specs.Numbers.{refusal_of};
ghost use Rattle.sessions.specs.Calls.{KnownBy, Shows};

use ledger::bytes::line_of;
use policy_tables::PolicyTables;
use reasons::{Reason, Refusal};
use sessions::answer::fill;
use sessions::first::{first_refusal, session_refusal};
use sessions::given::UserSession;
use tables_rows::carried::carried_by;

// The active roles of the user's session and the permissions that they carry fill the answer buffer.
pub fn show_session(
    ledger: &[u8],
    tables: &PolicyTables,
    who: UserSession,
    answer: &mut [u8],
) -> Result<(), Refusal>
    ensures { (p : Policy) → KnownBy tables.now p
        → values tables.now.granted ≡ p.granted
        → tables.now.below ≡ below_table p
        → Shows (step_on SESSIONS p ledger.now (show_by who.user who.session (length answer.old))) (refusal_of result) answer.old
        answer.new }
{
    let session = who.session;
    first_refusal(ledger, tables, who.user)?;
    let l = line_of(ledger, who.user as usize);
    session_refusal(l, session)?;
    if answer.len() != 40 {
        return Err(Refusal::from(Reason::Room));
    }
    let active = l.sessions[session as usize].active;
    let permissions = carried_by(&tables.grants(), active);
    fill(answer, active, permissions);
    Ok(())
}
