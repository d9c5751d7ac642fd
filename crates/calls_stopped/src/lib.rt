// The call that tells whom an image stops, over byte slices: the users whose line of the ledger is not sound under it.
#![tactic(auto)]

ghost use Rattle.std.specs.Prelude.{◌≡◌, ◌*◌, ◌≤◌, length};
ghost use Rattle.model.specs.Policy.{Policy};
ghost use Rattle.model.specs.Line.{SESSIONS, line_size};
ghost use Rattle.hierarchy.specs.Replies.{Replies};
ghost use Rattle.reasons.specs.Numbers.{returned_by};
ghost use Rattle.sessions.specs.Calls.{KnownBy};
ghost use Rattle.model_stopped.specs.Stopped.{stopped_set as stopped_set_of, stopped_on, stopped_call};

use ledger::bytes::LINE;
use limits_lines::lines::line_sound;
use policy_tables::PolicyTables;
use reasons::{Reason, Refusal, refused, returned};
use tables::read::read;

// The users whose line is not sound, user u as bit u. It asks of the ledger what `line_sound` does.
fn stopped_set(ledger: &[u8], policy: &PolicyTables) -> u64
    requires { length ledger.now ≡ line_size SESSIONS * policy.now.head.users }
    ensures { (p : Policy) → KnownBy policy.now p
        → result ≡ stopped_set_of SESSIONS p ledger.now }
{
    let users = policy.head.users as usize;
    sets::set_of(users, |u| !line_sound(ledger, policy, u))
}

// Under an accepted policy: refused where the ledger does not fit, and where the buffer has not 8 bytes; else these are
// the users, and the extra is how many they are.
fn tell(ledger: &[u8], policy: &PolicyTables, users: &mut [u8]) -> Result<u64, Refusal>
    ensures { (p : Policy) → KnownBy policy.now p
        → Replies (stopped_on SESSIONS p ledger.now (length users.old)) (returned_by result) users.old users.new }
{
    if ledger.len() != LINE * policy.head.users as usize {
        return Err(Refusal::from(Reason::Ledger));
    }
    if users.len() != 8 {
        return Err(Refusal::from(Reason::Room));
    }
    let set = stopped_set(ledger, policy);
    octets::put_u64(users, 0, set);
    Ok(sets::size(set) as u64)
}

// Tells whom the image stops. By `let .. else` as each call (docs/ACCEPTANCE.md).
pub fn tell_stopped(image: &[u8], ledger: &[u8], users: &mut [u8]) -> u64
    ensures { Replies (stopped_call SESSIONS image.now ledger.now (length users.old)) result
        users.old users.new }
{
    let mut policy = PolicyTables::new();
    let outcome = read(image, &mut policy);
    let Ok(()) = outcome else {
        return refused(outcome);
    };
    returned(tell(ledger, &policy, users))
}
