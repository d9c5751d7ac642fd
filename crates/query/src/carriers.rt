// The turned table of what roles carry: for each wanted permission the roles that carry it, one word.
ghost use Rattle.std.specs.Prelude.{◌≡◌, ◌&&◌, ℕ, ◌+◌, ◌*◌, ◌<◌, eqb, ltb, replicate};
ghost use Rattle.model.specs.Sets.{has};
ghost use Rattle.model.specs.Policy.{Policy, meaning};
ghost use Rattle.model.specs.Ranges.{InRange};
ghost use Rattle.sets.specs.Words.{value};
ghost use Rattle.query.specs.Carry.{rows_of, Carry, Turned, Named, Marked};

use model::Role;
use sets_split::permission_at;

// Role r joins the carriers of the permissions of a word, that at `place` of the four.
fn mark_word(table: &mut [u64; 256], place: usize, word: u64, r: Role)
    requires { (place < 4) × (r.0 < 64) }
    ensures { Marked (λ q k. eqb q place && has word k) r.0 table.old table.new }
{
    for bit in sets::members(word) {
        let p = permission_at(place, bit);
        let m = p.0 as usize;
        table[m] = sets::with(table[m], r);
    }
}

// Role r joins the carriers of the wanted permissions of its row.
fn mark_row(table: &mut [u64; 256], row: [u64; 4], wanted: [u64; 4], r: Role)
    requires { r.0 < 64 }
    ensures { Marked (λ q k. ltb q 4 && (has (value row) (q * 64 + k) && has (value wanted) (q * 64 + k))) r.0 table.old
        table.new }
{
    // The place goes on to the call, and both sets are read there: a zip would need it besides.
    for place in 0..4usize {
        let word = sets::inter(row[place], wanted[place]);
        mark_word(table, place, word, r);
    }
}

// The roles of a set join the sets of the wanted permissions of their rows, in a table of empty sets: it then has for
// each wanted permission the roles of the set whose rows have it. Under every policy in which each of them carries its
// row, these are those that have a granting role of it.
pub fn join_carriers(table: &mut [u64; 256], rows: &[[u64; 4]; 64], set: u64, wanted: [u64; 4])
    requires { table.old ≡ replicate 256 0 }
    ensures { (Turned (rows_of rows.now) table.new (value wanted) set)
        × ((p : Policy) (u : ℕ) → InRange p → Carry (meaning p u) set (rows_of rows.now) → Named p table.new (value wanted) set) }
{
    for k in sets::members(set) {
        mark_row(table, rows[k as usize], wanted, Role(k));
    }
}

// The same as a table by value. A search fills its own: it copies 2 KB less.
pub fn carriers(rows: &[[u64; 4]; 64], set: u64, wanted: [u64; 4]) -> [u64; 256]
    ensures { (Turned (rows_of rows.now) result (value wanted) set)
        × ((p : Policy) (u : ℕ) → InRange p → Carry (meaning p u) set (rows_of rows.now) → Named p result (value wanted) set) }
{
    let mut table = [0u64; 256];
    join_carriers(&mut table, rows, set, wanted);
    table
}
