// The calls that carry a ledger over, over byte slices: from so many sessions a user to so many, and the two that a
// host may make.
#![tactic(auto)]

ghost use Rattle.std.specs.Prelude.{◌≤◌, ◌<◌};
ghost use Rattle.model.specs.Line.{SESSIONS};
ghost use Rattle.model.specs.Moves.{move, widened, narrowed};
ghost use Rattle.sessions.specs.Calls.{Gives};

use policy_tables::PolicyTables;
use reasons::refused;
use tables::read::read;

// Carries a ledger from so many sessions a user to so many. An enum of the two moves would give the same two numbers on
// to `move_lines`, and a third number of sessions needs only one more pair of them. The judgement is taken apart as in
// each call, by `let .. else` (docs/ACCEPTANCE.md).
fn moved(image: &[u8], old: &[u8], new: &mut [u8], from: u8, to: u8) -> u64
    requires { (0 < from) × (from ≤ SESSIONS) × (to ≤ SESSIONS) }
    ensures { Gives (move from to image.now old.now new.old) result new.new }
{
    let mut policy = PolicyTables::new();
    let outcome = read(image, &mut policy);
    let Ok(()) = outcome else {
        return refused(outcome);
    };
    refused(moves::lines::move_lines(old, from, to, &policy, new))
}

// Carries a ledger of four sessions a user over to one of eight.
pub fn widen(image: &[u8], old: &[u8], new: &mut [u8]) -> u64
    ensures { Gives (widened image.now old.now new.old) result new.new }
{
    moved(image, old, new, 4, 8)
}

// Carries a ledger of eight sessions a user back to one of four.
pub fn narrow(image: &[u8], old: &[u8], new: &mut [u8]) -> u64
    ensures { Gives (narrowed image.now old.now new.old) result new.new }
{
    moved(image, old, new, 8, 4)
}
