// The soft clauses of the objectives.
ghost use Rattle.std.specs.Prelude.{ℕ};
ghost use Rattle.model.specs.Dimacs.{clauses_text};
ghost use Rattle.query_rank.specs.Objectives.{number_of, Stands};
ghost use Rattle.clauses_bytes.specs.Putting.{Puts};
ghost use Rattle.clauses_lines.specs.Lines.{lines_of};
ghost use Rattle.clauses_soft.specs.Soft.{wanted, wanting_permissions, wanting_roles};

use clauses_bytes::bytes::packed;
use clauses_lines::lines::{put_must, put_must_not};
use clauses_lines::variables::{Variables, role_variable};
use model::{Permission, Role};
use query_rank::objective::Objective;

// The buffer and the place of the next byte are two parameters, for the reason in clauses_bytes/src/bytes.rt.

// Puts what an objective wants of a variable: that it is false for the fewest, true for the most. The weight w is a
// packed text.
fn put_wanting(out: &mut [u8], at: usize, aim: Objective, w: usize, x: usize) -> usize
    ensures { Puts out.old at (lines_of w (wanted (number_of aim) x)) out.new result }
{
    match aim {
        Objective::Any => at,
        Objective::Fewest => put_must_not(out, at, w, x),
        Objective::Most => put_must(out, at, w, x),
    }
}

// Puts what the first objective wants of the permissions, by each number that stands for it.
pub fn put_wanting_permissions(
    out: &mut [u8],
    at: usize,
    aim: Objective,
    variables: Variables,
) -> usize
    ensures { (a : ℕ) → Stands aim a
        → Puts out.old at (clauses_text (wanting_permissions variables.roles variables.permissions a)) out.new result }
{
    let w = packed(variables.roles + 1);
    let mut next = at;
    // The number is the permission that has the clause; no table is walked, here and below.
    for q in 0..variables.permissions {
        next = put_wanting(out, next, aim, w, variables.permission(Permission(q as u8)));
    }
    next
}

// Puts what the second objective wants of the roles, by each number that stands for it. Beside the permissions' it has
// another definition, weight and variable, which leaves one line that both would share.
pub fn put_wanting_roles(out: &mut [u8], at: usize, aim: Objective, variables: Variables) -> usize
    ensures { (a : ℕ) → Stands aim a → Puts out.old at (clauses_text (wanting_roles variables.roles a)) out.new result }
{
    let w = packed(1);
    let mut next = at;
    for r in 0..variables.roles {
        next = put_wanting(out, next, aim, w, role_variable(Role(r as u8)));
    }
    next
}
