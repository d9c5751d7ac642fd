// The lowest role on a loop of senior words, and an image judged by what its words mean together once they pass: the
// refusals 22 and 23.
ghost use Rattle.std.specs.Prelude.{◌≡◌, true, false, List, get_or, ℕ, ◌≤◌, ◌<◌, Ok};
ghost use Rattle.model.specs.declared.Head.{Head as HeadOf};
ghost use Rattle.model.specs.Tests.{lowest, if_below};
ghost use Rattle.model.specs.Sets.{has};
ghost use Rattle.model.specs.Policy.{Policy};
ghost use Rattle.hierarchy.specs.Names.{name_of};
ghost use Rattle.hierarchy_judged.specs.Loops.{Fit, Passed, Stands, Comes};

use crate::authorized::authorize;
use hierarchy::closure::close;
use model::{Head, Role};
use reasons::{Reason, Refusal};

// The lowest of so many roles that stands below itself in a closed table, if one does.
pub fn lowest_on_loop(below: &[u64; 64], roles: usize) -> Option<Role>
    requires { roles ≤ 64 }
    ensures { name_of result ≡ if_below roles (lowest (λ a. has (get_or below.now a 0) a) 0 roles) }
{
    for (r, row) in below[..roles].iter().enumerate() {
        let role = Role(r as u8);
        if sets::has(*row, role) {
            return Some(role);
        }
    }
    None
}

// One of so many roles stands over another.
fn some_over(below: &[u64; 64], roles: usize) -> bool
    requires { roles ≤ 64 }
    ensures { result ≡ false → (r : ℕ) → r < roles → get_or below.now r 0 ≡ 0 }
{
    below[..roles].iter().any(|row| *row != 0)
}

// The judgement of an image whose words are judged stands: they are refused, or no role stands over another, and the
// tables of assigned roles and of direct juniors are right as they are.
pub fn settled<R: Copy>(words: Result<Head, R>, juniors: &[u64; 64]) -> bool
    requires { (h : HeadOf) → words ≡ Ok h → h.roles ≤ 64 }
    ensures { result ≡ true → (p : Policy) (assigned : List ℕ) → ((h : HeadOf) → words ≡ Ok h → Fit h assigned juniors.now)
        → Passed p words assigned juniors.now → Stands p words assigned juniors.now }
{
    let Ok(head) = words else {
        return true;
    };
    !some_over(juniors, head.roles as usize)
}

// What an image whose words are judged is judged by what they mean together: 22 with the lowest role on a loop, then 23
// with the lowest user who may activate more than 16 roles. The table of direct juniors is closed in place, and the
// table of assigned roles becomes that of the roles that each user may activate. Words that are refused stay so: their
// refusal, of whatever type, comes back as it is.
pub fn judged<R: Copy>(
    words: Result<Head, R>,
    assigned: &mut [u64; 64],
    juniors: &mut [u64; 64],
) -> Result<Result<Head, Refusal>, R>
    requires { (h : HeadOf) → words ≡ Ok h → Fit h assigned.old juniors.old }
    ensures { (p : Policy) → Passed p words assigned.old juniors.old → Comes p words result assigned.new juniors.new }
{
    let head = words?;
    let roles = head.roles as usize;
    let users = head.users as usize;
    close(juniors, roles);
    if let Some(role) = lowest_on_loop(juniors, roles) {
        return Ok(Err(Refusal {
            reason: Reason::Loop,
            extra: role.0 as u16,
        }));
    }
    if let Some(user) = authorize(juniors, roles, users, assigned) {
        return Ok(Err(Refusal {
            reason: Reason::Reach,
            extra: user as u16,
        }));
    }
    Ok(Ok(head))
}
