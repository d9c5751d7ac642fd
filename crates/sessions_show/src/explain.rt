// Explaining a permission of a session under an accepted policy.
ghost use Rattle.std.specs.Prelude.{◌≡◌, ◌≤◌};
ghost use Rattle.model.specs.Line.{SESSIONS};
ghost use Rattle.model.specs.Policy.{Policy, below_table};
ghost use Rattle.model.specs.Run.{step_on, explain_by, returned};
ghost use Rattle.sets.specs.Words.{values};
ghost use Rattle.reasons.specs.Numbers.{returned_by};
ghost use Rattle.sessions.specs.Calls.{KnownBy};

use ledger::bytes::line_of;
use model::Permission;
use policy_tables::PolicyTables;
use reasons::{Reason, Refusal};
use sessions::first::{first_refusal, session_refusal};
use sessions::given::UserSession;
use tables_rows::explain::explain;

// The lowest active role of the user's session that carries the permission, with its granting role: 64 times the one
// plus the other.
pub fn explain_session(
    ledger: &[u8],
    tables: &PolicyTables,
    who: UserSession,
    permission: u64,
) -> Result<u64, Refusal>
    requires { tables.now.head.permissions ≤ 256 }
    ensures { (p : Policy) → KnownBy tables.now p
        → values tables.now.granted ≡ p.granted
        → tables.now.below ≡ below_table p
        → returned_by result ≡ returned (step_on SESSIONS p ledger.now (explain_by who.user who.session permission)).reply }
{
    let session = who.session;
    first_refusal(ledger, tables, who.user)?;
    let l = line_of(ledger, who.user as usize);
    session_refusal(l, session)?;
    if tables.head.permissions as u64 <= permission {
        return Err(Refusal::from(Reason::Permission));
    }
    let active = l.sessions[session as usize].active;
    let explained = explain(&tables.grants(), active, Permission(permission as u8));
    explained.ok_or(Refusal::from(Reason::NoRoles))
}
