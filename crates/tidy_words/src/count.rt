// How many words the tables and the exclusions have, by the sizes of their sets. The bounds keep sums of these numbers
// in a machine word.
ghost use Rattle.std.specs.Prelude.{◌≡◌, ℕ, ◌^◌, ◌<◌, ◌≤◌, map, length};
ghost use Rattle.model_tidy.specs.Groups.{spread};
ghost use Rattle.model_tidy.specs.Tidy.{exclusion_group};
ghost use Rattle.exclusion_rows.specs.Table.{exclusion_list};
ghost use Rattle.tidy_words.specs.Tables.{table_words, Table, limit_words, Limited};

use exclusion_rows::ExclusionTable;
use sets::counted::Counted;

// The words of a table of sets, of which only the first n rows have members: one for each member.
pub fn count_table<S: Counted>(rows: &[S], n: usize) -> usize
    requires { (n ≤ 64) × Table n (map S.as_set rows.now) }
    ensures { (result < 2 ^ 40)
        × ((word : ℕ → ℕ → ℕ) → result ≡ length (table_words word S.top (map S.as_set rows.now) 0)) }
{
    let mut m: usize = 0;
    for row in rows[..n].iter() {
        m += row.size() as usize;
    }
    m
}

// The words of the exclusions: one for each, and one for each of its members.
pub fn count_exclusions(xs: &ExclusionTable) -> usize
    ensures { (result < 2 ^ 40) × (result ≡ length (spread (map exclusion_group (exclusion_list xs.now)))) }
{
    let mut m: usize = 0;
    for x in xs.listed() {
        m += 1 + sets::size(x.members) as usize;
    }
    m
}

// The words of the limits of the first n roles, one for each that is there; no other role has one.
pub fn count_limits(limits: &[u64; 64], n: usize) -> usize
    requires { (n ≤ 64) × Limited n limits.now }
    ensures { (result ≤ 64) × (result ≡ length (limit_words limits.now 0)) }
{
    let mut m: usize = 0;
    for t in limits[..n].iter() {
        m += usize::from(*t != 0);
    }
    m
}
