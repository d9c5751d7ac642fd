// Why an image or a call is refused: the reasons, each with its number in the register (docs/REFERENCE.md), and a
// refusal with what it names beside its reason.
#![tactic(auto)]

ghost use Rattle.std.specs.Prelude.{◌≡◌};
ghost use Rattle.reasons.specs.Numbers.{numbered, coded, number_of, plainly, code_of, returned_by, refusal_of};

// A reason, by its number.
#[derive(Clone, Copy, PartialEq, Eq)]
pub enum Reason {
    // of an image
    Length = 1,
    Head = 2,
    Kind = 3,
    Spare = 4,
    Range = 5,
    Repeat = 6,
    Crowd = 7,
    Balance = 8,
    // of a call
    Ledger = 9,
    Person = 10,
    Line = 11,
    Session = 12,
    Closed = 13,
    Full = 14,
    Set = 15,
    Permission = 16,
    Bounds = 17,
    Aim = 18,
    Room = 19,
    NoRoles = 20,
    // of a line of a script
    Script = 21,
    // of an image, by what its words mean together
    Loop = 22,
    Reach = 23,
    // of a ledger that is carried over
    UpperSessions = 24,
}

// The number of a reason.
impl From<Reason> for u64 {
    ghost from_gives = { numbered };

    fn from(reason: Reason) -> u64 {
        reason as u64
    }
}

// A refusal: its reason, and the number of what it names (a place, a role or a user), 0 where it names nothing.
#[derive(Clone, Copy)]
pub struct Refusal {
    pub reason: Reason,
    pub extra: u16,
}

// A refusal that names nothing.
impl From<Reason> for Refusal {
    ghost from_gives = { plainly };

    fn from(reason: Reason) -> Refusal {
        Refusal { reason, extra: 0 }
    }
}

// A refusal as the number that a host gets: that of its reason plus 256 times what it names.
impl From<Refusal> for u64 {
    ghost from_gives = { coded };

    fn from(refusal: Refusal) -> u64 {
        u64::from(refusal.reason) + 256 * (refusal.extra as u64)
    }
}

// What a call returns to a host for what it comes to: 256 times the extra where it is done, else the refusal's number.
pub fn returned(outcome: Result<u64, Refusal>) -> u64
    ensures { result ≡ returned_by outcome }
{
    match outcome {
        Ok(extra) => extra.wrapping_mul(256),
        Err(refusal) => u64::from(refusal),
    }
}

// The same of what has no extra where it is done: a call, or the judgement of an image.
pub fn refused<T: Copy>(outcome: Result<T, Refusal>) -> u64
    ensures { result ≡ refusal_of outcome }
{
    match outcome {
        Ok(_) => 0,
        Err(refusal) => u64::from(refusal),
    }
}
