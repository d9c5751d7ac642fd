// The hard clauses of the exclusions: for each a counter of the members that are not counted yet, with a row of
// helpers for each member.
ghost use Rattle.std.specs.Prelude.{◌≡◌, ◌+◌, ◌*◌, ◌≤◌, ◌<◌, length};
ghost use Rattle.model.specs.Clauses.{keeping, adding, row, rows, counter, variables_in};
ghost use Rattle.clauses_bytes.specs.Putting.{Puts};
ghost use Rattle.clauses_lines.specs.Lines.{lines_of};
ghost use Rattle.query_reduced.specs.Met.{masks_of, ns_of};
ghost use Rattle.query_reduced.specs.Reduction.{listed};
ghost use Rattle.clauses_counter.specs.Counters.{counters};

use clauses_lines::lines::{put_both_imply, put_implies, put_must_not};
use query_reduced::reduced::Reduced;

// The buffer and the place of the next byte are two parameters, for the reason in clauses_bytes/src/bytes.rt.

// Puts that what the row behind a counts, the next row counts too.
fn put_keeping(out: &mut [u8], at: usize, w: usize, n: u32, a: usize) -> usize
    requires { a ≤ 9007199254740992 }
    ensures { Puts out.old at (lines_of w (keeping n a)) out.new result }
{
    let mut next = at;
    let size = n as usize;
    // The number counts helpers; no table is walked, here and below.
    for j in 0..size {
        next = put_implies(out, next, w, a + j + 1, a + size + j + 1);
    }
    next
}

// Puts that with x the next row counts one more.
fn put_adding(out: &mut [u8], at: usize, w: usize, n: u32, a: usize, x: usize) -> usize
    requires { a ≤ 9007199254740992 }
    ensures { Puts out.old at (lines_of w (adding n a x)) out.new result }
{
    let mut next = at;
    let size = n as usize;
    let end = size.saturating_sub(1);
    for j in 0..end {
        next = put_both_imply(out, next, w, x, a + j + 1, a + size + j + 2);
    }
    next
}

// Puts the row of the variable x.
fn put_row(out: &mut [u8], at: usize, w: usize, n: u32, a: usize, x: usize) -> usize
    requires { a ≤ 9007199254740992 }
    ensures { Puts out.old at (lines_of w (row n a x)) out.new result }
{
    let first = put_implies(out, at, w, x, a + n as usize + 1);
    let kept = put_keeping(out, first, w, n, a);
    put_adding(out, kept, w, n, a, x)
}

// Puts the rows of the members, lowest first, and that the last row's last helper is false.
fn put_rows(out: &mut [u8], at: usize, w: usize, n: u32, a: usize, members: u64) -> usize
    requires { a ≤ 4503599627370496 }
    ensures { Puts out.old at (lines_of w (rows n a (variables_in members))) out.new result }
{
    let mut next = at;
    let mut behind = a;
    for r in sets::members(members) {
        next = put_row(out, next, w, n, behind, r as usize + 1);
        behind += n as usize;
    }
    put_must_not(out, next, w, behind + n as usize)
}

// Puts the counter of the members up to n, by helpers behind a.
fn put_counter(out: &mut [u8], at: usize, w: usize, n: u32, a: usize, members: u64) -> usize
    requires { a ≤ 4503599627370496 }
    ensures { Puts out.old at (lines_of w (counter n a (variables_in members))) out.new result }
{
    if members == 0 {
        return at;
    }
    let r = sets::lowest(members);
    let next = put_implies(out, at, w, r.0 as usize + 1, a + 1);
    put_rows(out, next, w, n, a, sets::without(members, r))
}

// How many helpers a counter has.
#[tactic(auto, using(crate::proofs::CounterLaws::helpers_are, crate::proofs::CounterLaws::helpers_small))]
pub fn helpers(n: u32, members: u64) -> usize
    ensures { (result ≡ length (variables_in members) * n) × (result ≤ 274877906880) }
{
    sets::size(members) as usize * n as usize
}

// Puts the counters of the reduced exclusions, their helpers behind a.
pub fn put_counters(out: &mut [u8], at: usize, w: usize, a: usize, exclusions: &Reduced) -> usize
    requires { a ≤ 1125899906842624 }
    ensures { let xs = listed exclusions.now in
        Puts out.old at (lines_of w (counters (masks_of xs) (ns_of xs) (length xs) 0 a)) out.new result }
{
    let mut next = at;
    let mut behind = a;
    for x in exclusions.list() {
        next = put_counter(out, next, w, x.n, behind, x.members);
        behind += helpers(x.n, x.members);
    }
    next
}
