// The hard clauses of own roles, of what roles carry, and of the bounds.
ghost use Rattle.std.specs.Prelude.{◌∷◌, ◌+◌, ◌≤◌, ◌<◌};
ghost use Rattle.model.specs.Clauses.{fails, role_variable};
ghost use Rattle.model.specs.Dimacs.{literals_text};
ghost use Rattle.sets.specs.Words.{value};
ghost use Rattle.clauses_bytes.specs.Putting.{Puts};
ghost use Rattle.clauses_lines.specs.Lines.{line_of, lines_of};
ghost use Rattle.clauses_hard.specs.Parts.{rows_of, barred, barring_to, carrying_row, carrying_to, roles_in, Columns, carried_to, lower_bound_to, upper as upper_of, upper_bound_to};

use crate::members::{low_members, next_member};
use clauses_bytes::bytes::put_packed;
use clauses_lines::lines::{Literal, put_end, put_implies, put_literal, put_must, put_must_not};
use clauses_lines::variables::{Variables, role_variable};
use model::{Permission, Role};
use query::carriers::carriers;

// The buffer and the place of the next byte are two parameters, for the reason in clauses_bytes/src/bytes.rt.

// ---- own roles

// Puts that role r is not chosen, where it is not authorized.
fn put_barred(out: &mut [u8], at: usize, w: usize, authorized: u64, r: Role) -> usize
    requires { r.0 < 64 }
    ensures { Puts out.old at (lines_of w (barred authorized r.0)) out.new result }
{
    if sets::has(authorized, r) {
        return at;
    }
    put_must_not(out, at, w, role_variable(r))
}

// Puts that no role is chosen that is not authorized.
pub fn put_barring(
    out: &mut [u8],
    at: usize,
    w: usize,
    authorized: u64,
    variables: Variables,
) -> usize
    ensures { Puts out.old at (lines_of w (barring_to variables.roles authorized)) out.new result }
{
    let mut next = at;
    // The number is the role that is asked about; no table is walked.
    for r in 0..variables.roles {
        next = put_barred(out, next, w, authorized, Role(r as u8));
    }
    next
}

// ---- what roles carry

// Puts that role r gives each permission of its row.
fn put_carrying_row(
    out: &mut [u8],
    at: usize,
    w: usize,
    row: [u64; 4],
    r: Role,
    variables: Variables,
) -> usize
    ensures { Puts out.old at (lines_of w (carrying_row variables.roles variables.permissions (value row) (role_variable r.0))) out.new result }
{
    let mut next = at;
    let permissions = variables.permissions;
    let x = role_variable(r);
    let mut q = next_member(row, 0, permissions);
    // An iterator would hold the set, its place and the end beside what is here.
    while q < permissions {
        next = put_implies(out, next, w, x, variables.permission(Permission(q as u8)));
        q = next_member(row, q + 1, permissions);
    }
    next
}

// Puts that each role gives what it carries.
pub fn put_carrying(
    out: &mut [u8],
    at: usize,
    w: usize,
    rows: &[[u64; 4]; 64],
    variables: Variables,
) -> usize
    ensures { Puts out.old at (lines_of w (carrying_to variables.roles variables.permissions (rows_of rows.now))) out.new result }
{
    let mut next = at;
    // The number is a role and its row's place.
    for r in 0..variables.roles {
        next = put_carrying_row(out, next, w, rows[r], Role(r as u8), variables);
    }
    next
}

// Puts the roles of a set, as far as there are roles.
fn put_roles(out: &mut [u8], at: usize, set: u64, variables: Variables) -> usize
    ensures { Puts out.old at (literals_text (roles_in variables.roles set)) out.new result }
{
    let mut next = at;
    for r in sets::members(low_members(set, variables.roles)) {
        next = put_literal(out, next, Literal::Holds(role_variable(Role(r))));
    }
    next
}

// Puts that permission q is there only with a role of a set, that of its carriers.
fn put_carried_one(
    out: &mut [u8],
    at: usize,
    w: usize,
    set: u64,
    q: Permission,
    variables: Variables,
) -> usize
    ensures { Puts out.old at (line_of w (fails (variables.roles + q.0 + 1) ∷ roles_in variables.roles set)) out.new result }
{
    let a = put_packed(out, at, w);
    let b = put_literal(out, a, Literal::Fails(variables.permission(q)));
    let c = put_roles(out, b, set, variables);
    put_end(out, c)
}

// For each permission the roles whose rows have it.
#[tactic(auto, using(crate::proofs::CarrierLaws::columns_are))]
fn carriers_of(rows: &[[u64; 4]; 64], variables: Variables) -> [u64; 256]
    ensures { Columns variables.roles (rows_of rows.now) result }
{
    let every = 18446744073709551615u64;
    carriers(
        rows,
        low_members(every, variables.roles),
        [every, every, every, every],
    )
}

// Puts that each permission is there only with a role that carries it.
pub fn put_carried(
    out: &mut [u8],
    at: usize,
    w: usize,
    rows: &[[u64; 4]; 64],
    variables: Variables,
) -> usize
    ensures { Puts out.old at (lines_of w (carried_to variables.roles variables.permissions (rows_of rows.now))) out.new result }
{
    let table = carriers_of(rows, variables);
    let mut next = at;
    // The number is a permission and its column's place.
    for q in 0..variables.permissions {
        next = put_carried_one(out, next, w, table[q], Permission(q as u8), variables);
    }
    next
}

// ---- the bounds

// Puts that each permission of the lower bound is there.
pub fn put_lower_bound(
    out: &mut [u8],
    at: usize,
    w: usize,
    lower: [u64; 4],
    variables: Variables,
) -> usize
    ensures { Puts out.old at (lines_of w (lower_bound_to variables.roles variables.permissions (value lower))) out.new result }
{
    let mut next = at;
    let permissions = variables.permissions;
    let mut q = next_member(lower, 0, permissions);
    // As in `put_carrying_row`.
    while q < permissions {
        next = put_must(out, next, w, variables.permission(Permission(q as u8)));
        q = next_member(lower, q + 1, permissions);
    }
    next
}

// Puts that permission q is not there, where the upper bound lacks it.
fn put_absent(
    out: &mut [u8],
    at: usize,
    w: usize,
    upper: [u64; 4],
    q: Permission,
    variables: Variables,
) -> usize
    ensures { Puts out.old at (lines_of w (upper_of variables.roles (value upper) q.0)) out.new result }
{
    if sets::perm_has(upper, q) {
        return at;
    }
    put_must_not(out, at, w, variables.permission(q))
}

// Puts that no permission outside the upper bound is there.
pub fn put_upper_bound(
    out: &mut [u8],
    at: usize,
    w: usize,
    upper: [u64; 4],
    variables: Variables,
) -> usize
    ensures { Puts out.old at (lines_of w (upper_bound_to variables.roles variables.permissions (value upper))) out.new result }
{
    let mut next = at;
    // The number is the permission that is asked about; no table is walked.
    for q in 0..variables.permissions {
        next = put_absent(out, next, w, upper, Permission(q as u8), variables);
    }
    next
}
