// The table of direct juniors closed by Warshall's rule, in place.
ghost use Rattle.std.specs.Prelude.{◌≡◌, ◌≤◌, ◌<◌};
ghost use Rattle.model.specs.Policy.{taking, through as through_of, closure_by};
ghost use Rattle.hierarchy.specs.Upper.{EmptyFrom};

use model::Role;

// The row, and the other too where the row has k.
fn take_in(row: u64, other: u64, k: Role) -> u64
    requires { k.0 < 64 }
    ensures { result ≡ taking k.0 other row }
{
    if sets::has(row, k) {
        return row | other;
    }
    row
}

// Each of the first m rows that has k takes in row k; the others are empty. An empty row k changes none.
fn through_first(rows: &mut [u64; 64], m: usize, k: Role)
    requires { (k.0 < 64) × (m ≤ 64) × EmptyFrom m rows.old }
    ensures { rows.new ≡ through_of k.0 rows.old }
{
    let at = k.0 as usize;
    let other = rows[at];
    if other == 0 {
        return;
    }
    for row in &mut rows[..m] {
        *row = take_in(*row, other, k);
    }
}

// Warshall's closure, by the roles below n, of a table whose rows from m on are empty.
pub fn close_first(rows: &mut [u64; 64], m: usize, n: usize)
    requires { (n ≤ 64) × (m ≤ 64) × EmptyFrom m rows.old }
    ensures { rows.new ≡ closure_by n rows.old }
{
    // The number is a role, and each turn changes all rows: they cannot be walked meanwhile.
    for k in 0..n {
        through_first(rows, m, Role(k as u8));
    }
}

// Warshall's closure, by the roles below n.
pub fn close(rows: &mut [u64; 64], n: usize)
    requires { n ≤ 64 }
    ensures { rows.new ≡ closure_by n rows.old }
{
    close_first(rows, 64, n);
}
