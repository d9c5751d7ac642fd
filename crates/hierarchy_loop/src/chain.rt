// The shortest loop of the lowest role on one, shown: its roles from that role down and back to it, a byte each, and
// zeros after them. Level k holds the roles from which k senior words lead down to the role; the chain takes the lowest
// junior in the next lower level.
ghost use Rattle.std.specs.Prelude.{◌≡◌, ◌++◌, true, ℕ, length, replicate, ◌-◌, ◌≤◌, ◌<◌, Some};
ghost use Rattle.model.specs.Tests.{if_below};
ghost use Rattle.model.specs.Sets.{has};
ghost use Rattle.model.specs.Policy.{Policy};
ghost use Rattle.model.specs.Ranges.{InRange};
ghost use Rattle.model.specs.Loop.{seniors_of, level, loop_length, chain_down, loop_on};
ghost use Rattle.reasons.specs.Numbers.{returned_by};
ghost use Rattle.hierarchy.specs.Names.{found_of};
ghost use Rattle.hierarchy.specs.Upper.{EmptyFrom};
ghost use Rattle.hierarchy.specs.Replies.{Replies};
ghost use Rattle.hierarchy_loop.specs.Chained.{Levels, Ranged};

use hierarchy::closure::close_first;
use hierarchy_judged::loops::lowest_on_loop;
use model::Role;
use reasons::{Reason, Refusal};

// ---- levels

// The roles that stand directly over a role of the set; the rows from `roles` on are empty.
fn seniors_among(juniors: &[u64; 64], roles: usize, set: u64) -> u64
    requires { (roles ≤ 64) × EmptyFrom roles juniors.now }
    ensures { result ≡ seniors_of juniors.now set }
{
    sets::set_of(roles, |a| juniors[a] & set != 0)
}

// Fills level after level over role r until r itself is in one: how many senior words its shortest loop has, if it is
// on one. The rows from `roles` on are empty.
fn fill_levels_among(
    juniors: &[u64; 64],
    roles: usize,
    r: Role,
    levels: &mut [u64; 64],
) -> Option<usize>
    requires { (r.0 < 64) × (roles ≤ 64) × EmptyFrom roles juniors.now }
    ensures { (found_of result ≡ if_below 65 (loop_length juniors.now r.0))
        × ((n : ℕ) → result ≡ Some n → Levels juniors.now r.0 n levels.new) }
{
    let mut here = sets::with(0, r);
    for (k, level) in levels.iter_mut().enumerate() {
        *level = here;
        here = seniors_among(juniors, roles, here);
        if sets::has(here, r) {
            return Some(k + 1);
        }
    }
    None
}

// ---- the chain

// The chain of n senior words from role r down and back to it takes the place of the first zeros.
fn put_chain(juniors: &[u64; 64], levels: &[u64; 64], r: Role, n: usize, chain: &mut [u8])
    requires { (r.0 < 64) × (n ≤ 64) × (chain.old ≡ replicate 64 0) × Levels juniors.now r.0 n levels.now
        × (has (level juniors.now r.0 n) r.0 ≡ true) }
    ensures { chain.new ≡ chain_down juniors.now r.0 r.0 n ++ replicate (64 - n) 0 }
{
    let mut a = r;
    for (i, byte) in chain[..n].iter_mut().enumerate() {
        let b = sets::lowest(juniors[a.0 as usize] & levels[n - 1 - i]);
        *byte = b.0;
        a = b;
    }
}

// ---- the whole

// The shortest loop of the lowest role on one fills the buffer, and its length is the extra; 19 for a buffer of another
// length than 64, 20 where no role is on a loop. Once the role is known, its levels take the place of the closed table.
pub fn show_loop(juniors: &[u64; 64], roles: u8, chain: &mut [u8]) -> Result<u64, Refusal>
    requires { (roles ≤ 64) × Ranged juniors.now roles }
    ensures { (p : Policy) → InRange p → juniors.now ≡ p.juniors → p.head.roles ≡ roles
        → Replies (loop_on p (length chain.old)) (returned_by result) chain.old chain.new }
{
    if chain.len() != 64 {
        return Err(Reason::Room.into());
    }
    let count = roles as usize;
    let mut below = *juniors;
    close_first(&mut below, count, count);
    let who = lowest_on_loop(&below, count).ok_or(Reason::NoRoles)?;
    let n = fill_levels_among(juniors, count, who, &mut below).ok_or(Reason::NoRoles)?;
    chain.fill(0);
    put_chain(juniors, &below, who, n, chain);
    Ok(n as u64)
}
