// A line of the script read as the call that it is.
#![tactic(auto)]

pub mod parse;

// The call that a line is: its user and session, and for an ask the bounds and the objectives of permissions and roles.
#[derive(Clone, Copy)]
pub enum Call {
    Open {
        user: u64,
    },
    Close {
        user: u64,
        session: u64,
    },
    Show {
        user: u64,
        session: u64,
    },
    ShortAsk {
        user: u64,
        session: u64,
        lower: [u8; 32],
        upper: [u8; 32],
    },
    Ask {
        user: u64,
        session: u64,
        lower: [u8; 32],
        upper: [u8; 32],
        first: u64,
        second: u64,
    },
}
