// The exclusions reduced, once per ask, to what roles put in for one session may still add (000, Theorem 4.4.1).
ghost use Rattle.std.specs.Prelude.{◌≡◌, ◌≤◌, ◌<◌};
ghost use Rattle.model.specs.Line.{SESSIONS, active_in as active_in_of, others};
ghost use Rattle.model.specs.Reduced.{stay, mask_of, reduced_n as reduced_n_of};
ghost use Rattle.exclusion_rows.specs.Table.{exclusions_of};
ghost use Rattle.query_reduced.specs.Reduction.{reduced_by, listed, Reduces};

use crate::line_session::LineSession;
use crate::reduced::{Reduced, ReducedExclusion};
use exclusion_rows::ExclusionTable;
use ledger::sound::active_in;
use model::{Kind, SESSIONS, Session};

impl Reduced {
    // The reduced exclusions as a slice.
    pub fn list(&self) -> &[ReducedExclusion]
        ensures { result.now ≡ listed self.now }
    {
        &self.rows[..self.count]
    }
}

// The roles active in the sessions other than session k.
fn active_elsewhere(sessions: [Session; SESSIONS], k: usize) -> u64
    requires { k < SESSIONS }
    ensures { result ≡ active_in_of (others k sessions) }
{
    let mut rest = sessions;
    rest[k] = Session {
        active: 0,
        history: 0,
    };
    active_in(rest)
}

// What stays counted for a kind, whatever roles are put in: of the session's own active roles nothing, since they are
// replaced.
fn staying(kind: Kind, elsewhere: u64, session: u64, user: u64) -> u64
    ensures { result ≡ stay kind elsewhere session user }
{
    match kind {
        Kind::SsDmer => 0,
        Kind::MsDmer => elsewhere,
        Kind::SsHmer => session,
        Kind::MsHmer => user,
    }
}

// The members that are not counted yet.
fn mask_of(members: u64, base: u64) -> u64
    ensures { result ≡ mask_of members base }
{
    members ^ (members & base)
}

// One more than the number of members that may still join, or 0 where n is reached.
fn reduced_n(members: u64, n: u8, base: u64) -> u32
    ensures { result ≡ reduced_n_of members n base }
{
    let most = n as u32;
    let used = sets::size(sets::inter(members, base));
    if used < most {
        return most - used;
    }
    0
}

// An exclusion, where `base` is what stays counted for its kind.
fn reduced_by(members: u64, n: u8, base: u64) -> ReducedExclusion
    ensures { result ≡ reduced_by members n base }
{
    ReducedExclusion {
        members: mask_of(members, base),
        n: reduced_n(members, n, base),
    }
}

// The exclusions, for roles to be put in for a session of a line.
pub fn reduce(xs: &ExclusionTable, at: LineSession) -> Reduced
    ensures { (result.count ≡ xs.now.count) × (Reduces (exclusions_of xs.now) at.line at.session (listed result)) }
{
    let elsewhere = active_elsewhere(at.line.sessions, at.session);
    let own = at.line.sessions[at.session].history;
    let mut rows = [ReducedExclusion { members: 0, n: 0 }; 32];
    // The rows go by number: of rows that are lent to a zip no proof knows what was written.
    for (i, x) in xs.listed().iter().enumerate() {
        let base = staying(x.kind, elsewhere, own, at.line.history);
        rows[i] = reduced_by(x.members, x.n, base);
    }
    Reduced {
        rows,
        count: xs.count,
    }
}
