// An objective: what is asked of a number.
ghost use Rattle.query_rank.specs.Objectives.{Reads, Stands};

use reasons::Reason;

// What is asked of a number (01: an aim), of the permissions carried or of the roles chosen: an ask's 0, 1 or 2.
#[derive(Clone, Copy, PartialEq, Eq)]
pub enum Objective {
    Any,
    Fewest,
    Most,
}

// The objective of an ask's number; there are three.
impl TryFrom<u64> for Objective {
    type Error = Reason;

    ghost try_from_gives = { Reads };

    fn try_from(number: u64) -> Result<Objective, Reason> {
        match number {
            0 => Ok(Objective::Any),
            1 => Ok(Objective::Fewest),
            2 => Ok(Objective::Most),
            _ => Err(Reason::Aim),
        }
    }
}

// The objective that a number stands for: every number from 2 up is the most.
impl From<u8> for Objective {
    ghost from_gives = { λ n o. Stands o n };

    fn from(number: u8) -> Objective {
        match number {
            0 => Objective::Any,
            1 => Objective::Fewest,
            _ => Objective::Most,
        }
    }
}
