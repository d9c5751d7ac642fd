// What a call on a session is given beside tables and bytes.

// A user's session (01: window), by the numbers that a host gives: the user's, and the session's among the user's own.
#[derive(Clone, Copy)]
pub struct UserSession {
    pub user: u64,
    pub session: u64,
}
