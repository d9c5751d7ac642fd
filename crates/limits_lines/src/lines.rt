// Whether every line is sound, as an ask under a policy with limits goes by.
ghost use Rattle.std.specs.Prelude.{◌≡◌, ◌*◌, ◌<◌, length};
ghost use Rattle.model.specs.Policy.{Policy, meaning};
ghost use Rattle.model.specs.Line.{SESSIONS, line_size, sound as sound_by};
ghost use Rattle.model.specs.Run.{line_of};
ghost use Rattle.reasons.specs.Numbers.{code_of, refusal_of};
ghost use Rattle.sessions.specs.Calls.{KnownBy};
ghost use Rattle.limits_lines.specs.Lines.{blamed as blamed_for, lines_refusal as lines_refusal_of, others_refusal};

use ledger::bytes::LINE;
use ledger::plainly::sound_at;
use limits_left::has_limits;
use policy_tables::PolicyTables;
use reasons::{Reason, Refusal};
use sessions::first::roles_of;

// The line of user v is sound. docs/PROOFS.md names this function: what it asks of a ledger stays a clause, here and in
// what calls it, and is no `Ledger`.
pub fn line_sound(ledger: &[u8], tables: &PolicyTables, v: usize) -> bool
    requires { (length ledger.now ≡ line_size SESSIONS * tables.now.head.users) × (v < tables.now.head.users) }
    ensures { (p : Policy) → KnownBy tables.now p
        → result ≡ sound_by SESSIONS (meaning p v) (line_of SESSIONS ledger.now v) }
{
    let own = roles_of(&tables.authorized, v);
    sound_at(ledger, v, tables.head.roles, own, &tables.exclusions)
}

// A refusal for the line of user v, which names that user by v plus 1, where it is not the asker.
fn blamed(user: u64, v: usize) -> Refusal
    requires { v < 64 }
    ensures { code_of result ≡ blamed_for user v }
{
    if v as u64 == user {
        return Refusal::from(Reason::Line);
    }
    Refusal {
        reason: Reason::Line,
        extra: v as u16 + 1,
    }
}

// The lowest line that is not sound.
fn lines_refusal(ledger: &[u8], tables: &PolicyTables, user: u64) -> Result<(), Refusal>
    requires { length ledger.now ≡ line_size SESSIONS * tables.now.head.users }
    ensures { (p : Policy) → KnownBy tables.now p
        → refusal_of result ≡ lines_refusal_of SESSIONS p ledger.now user 0 tables.now.head.users }
{
    // The number is a user, and part of the answer.
    for v in 0..tables.head.users as usize {
        if !line_sound(ledger, tables, v) {
            return Err(blamed(user, v));
        }
    }
    Ok(())
}

// What a line that is not sound refuses an ask with, where some role has a limit, and neither 9 nor 10 refuses the ask.
pub fn refusal(ledger: &[u8], tables: &PolicyTables, user: u64) -> Result<(), Refusal>
    ensures { (p : Policy) → KnownBy tables.now p
        → p.limits ≡ tables.now.limits → refusal_of result ≡ others_refusal SESSIONS p ledger.now user }
{
    if !has_limits(&tables.limits) {
        return Ok(());
    }
    let users = tables.head.users as usize;
    if ledger.len() != LINE * users {
        return Ok(());
    }
    if users as u64 <= user {
        return Ok(());
    }
    lines_refusal(ledger, tables, user)
}
