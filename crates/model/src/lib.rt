// The plain data of the session kit. The definitions in specs/ and the code of the other crates use these same types,
// so that a contract is a plain equation. No function is written here.
#![tactic(auto)]

pub mod layout; // layout.rt: the kinds and fields of an image's words

// ---- numbers, one sort for each

// A user's number (01: person).
#[derive(Clone, Copy, PartialEq, Eq)]
pub struct User(pub u8);

// A role's number, any of a byte: an image can name roles that there are not. That it is below 64 is a clause of the
// functions that need it.
#[derive(Clone, Copy, PartialEq, Eq)]
pub struct Role(pub u8);

// A permission's number.
#[derive(Clone, Copy, PartialEq, Eq)]
pub struct Permission(pub u8);

// ---- the policy image

// The head's numbers: of users, roles and permissions (01: U, R, P).
#[derive(Clone, Copy, Default)]
pub struct Head {
    pub users: u8,
    pub roles: u8,
    pub permissions: u16,
}

// The four kinds of mutual exclusion, 0 to 3 in an image: what is counted is active in the session (single session),
// active in any open session of the user (multi session), or was so at any time since the session was opened, or ever
// (history).
#[derive(Clone, Copy, Default, PartialEq, Eq, PartialOrd, Ord)]
pub enum Kind {
    #[default]
    SsDmer,
    MsDmer,
    SsHmer,
    MsHmer,
}

// A mutual exclusion: fewer than n of its members may be counted. The members are a role set.
#[derive(Clone, Copy, Default, PartialEq, Eq, PartialOrd, Ord)]
pub struct Exclusion {
    pub kind: Kind,
    pub n: u8,
    pub members: u64,
}

// A policy's exclusions, in image order: the first `count` of the list.
#[derive(Clone, Copy)]
pub struct Exclusions {
    pub list: [Exclusion; 32],
    pub count: usize,
}

// What a word behind the head says. An exclusion word comes with the number of its member words (01: m), and has no
// member yet. A limit word says that fewer than t sessions of all users may hold a role.
#[derive(Clone, Copy)]
pub enum Entry {
    Assignment(User, Role),
    Grant(Role, Permission),
    Senior(Role, Role),
    Exclude(Exclusion, u8),
    Member(Role),
    Limit(Role, u16),
    End,
    Unknown,
}

// A word decoded: what it says, and its spare bits.
#[derive(Clone, Copy)]
pub struct Word {
    pub entry: Entry,
    pub spare: u32,
}

// What the words so far leave to judge the next one by, beside the roles assigned so far: the number of exclusions, how
// many members are still due, and the members so far of the exclusion that they are due for.
#[derive(Clone, Copy, Default)]
pub struct Scan {
    pub exclusions: u32,
    pub due: u32,
    pub members: u64,
}

// The answer of a check: the head's numbers, or the refusal's number and what it names: a place, a role or a user. Code
// gives a `Result`; the definitions and theorems over `judge`, `scan` and the calls speak of these two constructors.
#[derive(Clone, Copy)]
pub enum Checked {
    Accepted(Head),
    Refused(u8, u16),
}

// ---- the ledger

// The number of sessions (01: windows) of a user.
pub const SESSIONS: usize = 8;

// A session: its active roles, and those active at any time since it was opened (01: its past), as role sets.
#[derive(Clone, Copy, Default)]
pub struct Session {
    pub active: u64,
    pub history: u64,
}

// A user's line of the ledger: the open sessions as a set, the roles ever active (01: the person's past), and each
// session.
#[derive(Clone, Copy)]
pub struct Line {
    pub opened: u64,
    pub history: u64,
    pub sessions: [Session; SESSIONS],
}
