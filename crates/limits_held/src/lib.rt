// In how many sessions each role is active: the words of active roles are added up.
#![tactic(auto)]

ghost use Rattle.std.specs.Prelude.{◌≡◌, ℕ, ◌+◌, ◌*◌, ◌≤◌, ◌<◌, length};
ghost use Rattle.model.specs.Tests.{pick};
ghost use Rattle.model.specs.Line.{SESSIONS, line_size, holding, others};
ghost use Rattle.limits_counts.specs.Counted.{count_at};
ghost use Rattle.limits_held.specs.Held.{held_by_all};

use ledger::bytes::line_of;
use limits_counts::Counts;
use model::{SESSIONS, Session};

// The sessions of a line, session k without its roles where the line is the asker's own.
fn without(sessions: [Session; SESSIONS], own: bool, k: usize) -> [Session; SESSIONS]
    requires { k < SESSIONS }
    ensures { (r : ℕ) → holding r result ≡ pick own (holding r (others k sessions)) (holding r sessions) }
{
    if own {
        let mut rest = sessions;
        rest[k] = Session {
            active: 0,
            history: 0,
        };
        return rest;
    }
    sessions
}

// Each role counts one more for each of the sessions in which it is active.
fn add_sessions(c: Counts, sessions: [Session; SESSIONS]) -> Counts
    requires { (r : ℕ) → count_at c r ≤ 1015 }
    ensures { (r : ℕ) → (count_at result r ≡ count_at c r + holding r sessions) × (count_at result r ≤ count_at c r + SESSIONS) }
{
    let mut all = c;
    for s in sessions {
        all = all.with(s.active);
    }
    all
}

// In how many sessions of so many users each role is active, session k of the user left out. docs/PROOFS.md names this
// function: what it asks of a ledger stays a clause, and is no `Ledger`.
pub fn held(ledger: &[u8], users: usize, user: usize, k: usize) -> Counts
    requires { (users ≤ 64) × (length ledger.now ≡ line_size SESSIONS * users) × (k < SESSIONS) }
    ensures { (r : ℕ) → count_at result r ≡ held_by_all ledger.now user k users r }
{
    let mut all = Counts::none();
    // The number is a user, whose line is read; there is no slice of lines to walk.
    for v in 0..users {
        let l = line_of(ledger, v);
        let sessions = l.sessions;
        let counted = without(sessions, v == user, k);
        all = add_sessions(all, counted);
    }
    all
}
