// The members of permission sets by words: the next one from a number on, and how many there are below a number.
ghost use Rattle.std.specs.Prelude.{◌≡◌, ◌+◌, ◌%◌, ◌^◌, ◌≤◌, ◌<◌};
ghost use Rattle.model.specs.Sets.{count as count_of};
ghost use Rattle.sets.specs.Words.{value};
ghost use Rattle.clauses_hard.specs.Members.{Rest, Next};

// The permissions from a number on that stand in its word, each by how far behind the number it is.
fn rest(set: [u64; 4], from: usize) -> u64
    requires { from < 256 }
    ensures { Rest (value set) from result }
{
    let place = from / 64;
    set[place] >> (from % 64)
}

// The first permission of the set from a number on, or the end where none is before it. A word without one is passed
// at once.
pub fn next_member(set: [u64; 4], from: usize, end: usize) -> usize
    requires { (from ≤ end) × (end ≤ 256) }
    ensures { Next (value set) from end result }
{
    let mut at = from;
    // The place goes on to the next word, and not by one: a `for` has no such step.
    while at < end {
        let left = rest(set, at);
        if left != 0 {
            return (at + sets::lowest_bit(left) as usize).min(end);
        }
        at += 64 - at % 64;
    }
    end
}

// The members of a word below n.
pub fn low_members(word: u64, n: usize) -> u64
    requires { n ≤ 64 }
    ensures { result ≡ word % 2 ^ n }
{
    if n < 64 {
        return word % (1 << n);
    }
    word
}

// How many members below n a word has.
pub fn members_below(word: u64, n: usize) -> usize
    requires { n ≤ 64 }
    ensures { (result ≡ count_of n word) × (result ≤ n) }
{
    u64::count_ones(low_members(word, n)) as usize
}

// How many permissions below n the set has, word by word.
pub fn permissions_below(set: [u64; 4], n: usize) -> usize
    requires { n ≤ 256 }
    ensures { (result ≡ count_of n (value set)) × (result ≤ n) }
{
    let mut total: usize = 0;
    let mut from: usize = 0;
    // Each step goes on to the next word, or to n.
    while from < n {
        let more = (64 - from % 64).min(n - from);
        total += members_below(rest(set, from), more);
        from += more;
    }
    total
}
