// The lines of a ledger: all judged before the first is written, so that a refusal leaves the target alone.
ghost use Rattle.std.specs.Prelude.{◌≡◌, ◌*◌, ◌≤◌, ◌<◌, length};
ghost use Rattle.model.specs.Policy.{Policy};
ghost use Rattle.model.specs.Line.{SESSIONS, line_size as line_size_of};
ghost use Rattle.model.specs.Run.{returned};
ghost use Rattle.model.specs.Moves.{move_answer, resized_lines, move_on};
ghost use Rattle.reasons.specs.Numbers.{refusal_of};
ghost use Rattle.sessions.specs.Calls.{KnownBy, Gives};

use ledger::lines::Ledger;
use moves_line::{line_fault, line_size, put_resized};
use policy_tables::PolicyTables;
use reasons::{Reason, Refusal};
use sessions::first::roles_of;

// The first fault of a line, from user 0 up, with its user.
fn first_fault(old: &Ledger, to: u8, tables: &PolicyTables) -> Result<(), Refusal>
    requires { old.now.users ≡ tables.now.head.users }
    ensures { (p : Policy) → KnownBy tables.now p
        → refusal_of result ≡ returned (move_answer old.now.sessions to p old.now.bytes.now 0 old.now.users) }
{
    // The number is a user, and part of the answer.
    for u in 0..old.users {
        let own = roles_of(&tables.authorized, u);
        if let Err(reason) = line_fault(&old.line(u), to, tables, own) {
            return Err(Refusal {
                reason,
                extra: u as u16,
            });
        }
    }
    Ok(())
}

// Writes each line, with the sessions of the new ledger, at its user's place. The new ledger is written, and so no
// `Ledger`: its length is a clause.
fn put_lines(old: &Ledger, to: u8, new: &mut [u8])
    requires { length new.old ≡ line_size_of to * old.now.users }
    ensures { new.new ≡ resized_lines old.now.sessions to old.now.bytes.now 0 old.now.users }
{
    // The number is a user, whose place is written.
    for u in 0..old.users {
        put_resized(new, to, u, old.line(u).bytes);
    }
}

// The ledger carried from so many sessions a user to so many: the old one does not fit, the new one does not, or a line
// has a fault; else the lines are written. docs/PROOFS.md names this function, so that both numbers stay.
pub fn move_lines(
    old: &[u8],
    from: u8,
    to: u8,
    tables: &PolicyTables,
    new: &mut [u8],
) -> Result<(), Refusal>
    requires { (0 < from) × (from ≤ SESSIONS) × (to ≤ SESSIONS) }
    ensures { (p : Policy) → KnownBy tables.now p
        → Gives (move_on from to p old.now new.old) (refusal_of result) new.new }
{
    let users = tables.head.users as usize;
    if old.len() != line_size(from) * users {
        return Err(Refusal::from(Reason::Ledger));
    }
    if new.len() != line_size(to) * users {
        return Err(Refusal::from(Reason::Room));
    }
    let lines = Ledger {
        bytes: old,
        sessions: from,
        users,
    };
    first_fault(&lines, to, tables)?;
    put_lines(&lines, to, new);
    Ok(())
}
