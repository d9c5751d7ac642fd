// The roles that no limit bars.
#![tactic(auto)]

ghost use Rattle.std.specs.Prelude.{◌≡◌, true, false, not, ◌*◌, ◌≤◌, ◌<◌, eqb, get_or, length};
ghost use Rattle.model.specs.declared.Exclusions.{Exclusions};
ghost use Rattle.model.specs.Tests.{any};
ghost use Rattle.model.specs.Sets.{set_of};
ghost use Rattle.model.specs.Policy.{Policy, authorized};
ghost use Rattle.model.specs.Line.{SESSIONS, line_size};
ghost use Rattle.sessions.specs.Calls.{Known};
ghost use Rattle.limits_counts.specs.Counted.{count_at};
ghost use Rattle.limits_left.specs.Left.{stays as stays_of, Unlimited, Left};

use limits_counts::Counts;
use limits_held::held;
use model::Role;
use policy_tables::PolicyTables;
use sessions::first::roles_of;
use sessions::given::UserSession;
use sets::members;

// Some role has a limit: all are joined, and none is tested by itself.
pub fn has_limits(limits: &[u64; 64]) -> bool
    ensures { result ≡ any (λ t. not (eqb t 0)) limits.now }
{
    let mut found: u64 = 0;
    for t in limits {
        found |= *t;
    }
    found != 0
}

// Some role of the set has a limit.
fn some_limited(limits: &[u64; 64], set: u64) -> bool
    ensures { (result ≡ true → any (λ t. not (eqb t 0)) limits.now ≡ true) × (result ≡ false → Unlimited limits.now set) }
{
    for r in members(set) {
        if limits[r as usize] != 0 {
            return true;
        }
    }
    false
}

// Role r is one of the user's own, and no limit t bars it.
fn stays(own: u64, t: u64, counts: Counts, r: Role) -> bool
    requires { r.0 < 64 }
    ensures { result ≡ stays_of own t (count_at counts r.0) r.0 }
{
    sets::has(own, r) && (t == 0 || counts.of(r) < t - 1)
}

// Those of the user's roles that no limit bars, by the counts of other sessions.
fn left_by(own: u64, limits: &[u64; 64], counts: Counts) -> u64
    ensures { result ≡ set_of (λ r. stays_of own (get_or limits.now r 0) (count_at counts r) r) 64 }
{
    sets::set_of(64, |r| stays(own, limits[r], counts, Role(r as u8)))
}

// Those of the user's own roles that no limit bars for session k. Where none of them has a limit, no other line is
// looked at. docs/PROOFS.md names this function: what it asks of a ledger stays a clause, and is no `Ledger`.
pub fn left(ledger: &[u8], users: usize, user: usize, k: usize, own: u64, limits: &[u64; 64]) -> u64
    requires { (users ≤ 64) × (user < users) × (length ledger.now ≡ line_size SESSIONS * users) × (k < SESSIONS) }
    ensures { (p : Policy) → p.head.users ≡ users → authorized p user ≡ own → p.limits ≡ limits.now
        → Left p ledger.now user k result }
{
    if some_limited(limits, own) {
        return left_by(own, limits, held(ledger, users, user, k));
    }
    own
}

// The same by a policy's tables, and by the same clause: a `Ledger` would be told to have as many users as the tables.
pub fn roles_left(ledger: &[u8], tables: &PolicyTables, who: UserSession) -> u64
    requires { (who.user < tables.now.head.users) × (length ledger.now ≡ line_size SESSIONS * tables.now.head.users)
        × (who.session < SESSIONS) }
    ensures { (p : Policy) (xs : Exclusions) → Known tables.now.head tables.now.authorized xs p → p.limits ≡ tables.now.limits
        → Left p ledger.now who.user who.session result }
{
    let head = tables.head;
    let u = who.user as usize;
    let own = roles_of(&tables.authorized, u);
    left(
        ledger,
        head.users as usize,
        u,
        who.session as usize,
        own,
        &tables.limits,
    )
}
