// The head, all clauses, and the whole text of an ask.
ghost use Rattle.std.specs.Prelude.{◌∷◌, ◌+◌, ◌≤◌, ℕ, length};
ghost use Rattle.model.specs.Dimacs.{ascii, decimal, head_text, clauses_text};
ghost use Rattle.clauses_bytes.specs.Putting.{Puts};
ghost use Rattle.clauses_lines.specs.Lines.{lines_of};
ghost use Rattle.query_rank.specs.Objectives.{Stands};
ghost use Rattle.query_reduced.specs.Reduction.{listed};
ghost use Rattle.clauses_soft.specs.Soft.{soft_by};
ghost use Rattle.clauses_text.specs.Whole.{hard_for, text_with};

use clauses_bytes::bytes::{packed, put, put_all, put_long};
use clauses_counter::counter::put_counters;
use clauses_hard::carries::{
    put_barring, put_carried, put_carrying, put_lower_bound, put_upper_bound,
};
use clauses_hard::question::Question;
use clauses_hard::sizes::{hard_size, helpers_of};
use clauses_soft::sizes::{soft_size, top_weight};
use clauses_soft::soft::{put_wanting_permissions, put_wanting_roles};
use query_reduced::reduced::Reduced;

// The buffer and the place of the next byte are two parameters, for the reason in clauses_bytes/src/bytes.rt.

// ---- the head

// Puts the mark of the head line.
fn put_mark(out: &mut [u8], at: usize) -> usize
    ensures { Puts out.old at (ascii "p wcnf ") out.new result }
{
    put_all(out, at, b"p wcnf ")
}

// Puts a blank and a number.
fn put_number(out: &mut [u8], at: usize, n: usize) -> usize
    ensures { Puts out.old at (32 ∷ decimal n) out.new result }
{
    let a = put(out, at, b' ');
    put_long(out, a, n)
}

// Puts the head line.
fn put_head(out: &mut [u8], at: usize, variables: usize, clauses: usize, top: usize) -> usize
    ensures { Puts out.old at (head_text variables clauses top) out.new result }
{
    let a = put_mark(out, at);
    let b = put_long(out, a, variables);
    let c = put_number(out, b, clauses);
    let d = put_number(out, c, top);
    put(out, d, b'\n')
}

// ---- the clauses

// Puts the hard clauses, each behind the weight w, a packed text.
fn put_hard(
    out: &mut [u8],
    at: usize,
    w: usize,
    rows: &[[u64; 4]; 64],
    q: Question,
    exclusions: &Reduced,
) -> usize
    ensures { Puts out.old at (lines_of w (hard_for q rows.now (listed exclusions.now))) out.new result }
{
    let variables = q.variables;
    let lower = q.lower;
    let upper = q.upper;
    let a = put_barring(out, at, w, q.authorized, variables);
    let b = put_carrying(out, a, w, rows, variables);
    let c = put_carried(out, b, w, rows, variables);
    let d = put_lower_bound(out, c, w, lower, variables);
    let e = put_upper_bound(out, d, w, upper, variables);
    put_counters(out, e, w, variables.last_plain(), exclusions)
}

// Puts the soft clauses, by each two numbers that stand for the objectives.
fn put_soft(out: &mut [u8], at: usize, q: Question) -> usize
    ensures { (a b : ℕ) → Stands q.first a → Stands q.second b
        → Puts out.old at (clauses_text (soft_by q.variables.roles q.variables.permissions a b)) out.new result }
{
    let a = put_wanting_permissions(out, at, q.first, q.variables);
    put_wanting_roles(out, a, q.second, q.variables)
}

// ---- the text

// Puts the whole text, by each two numbers that stand for the objectives.
pub fn put_text(
    out: &mut [u8],
    at: usize,
    rows: &[[u64; 4]; 64],
    q: Question,
    exclusions: &Reduced,
) -> usize
    ensures { (a b : ℕ) → Stands q.first a → Stands q.second b
        → Puts out.old at (text_with a b q rows.now (listed exclusions.now)) out.new result }
{
    let variables = q.variables;
    let first = q.first;
    let second = q.second;
    let w = top_weight(first, second, variables);
    let last = variables.last_plain() + helpers_of(exclusions);
    let hard = hard_size(rows, q, exclusions);
    let clauses = hard + soft_size(first, second, variables);
    let a = put_head(out, at, last, clauses, w);
    let b = put_hard(out, a, packed(w), rows, q, exclusions);
    put_soft(out, b, q)
}
