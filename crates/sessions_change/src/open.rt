// Opening a session under an accepted policy.
ghost use Rattle.model.specs.Line.{SESSIONS};
ghost use Rattle.model.specs.Policy.{Policy};
ghost use Rattle.model.specs.Run.{step_on, open_by};
ghost use Rattle.reasons.specs.Numbers.{returned_by};
ghost use Rattle.sessions.specs.Calls.{KnownBy, Gives};

use ledger::bytes::{line_of, put_line};
use ledger_change::{lowest_closed, opened};
use policy_tables::PolicyTables;
use reasons::{Reason, Refusal};
use sessions::first::first_refusal;

// The user's lowest closed session is opened, and returned.
pub fn open_session(ledger: &mut [u8], tables: &PolicyTables, user: u64) -> Result<u64, Refusal>
    ensures { (p : Policy) → KnownBy tables.now p
        → Gives (step_on SESSIONS p ledger.old (open_by user)) (returned_by result) ledger.new }
{
    first_refusal(ledger, tables, user)?;
    let u = user as usize;
    let l = line_of(ledger, u);
    let Some(k) = lowest_closed(l) else {
        return Err(Refusal::from(Reason::Full));
    };
    put_line(ledger, u, opened(l, k));
    Ok(k as u64)
}
