// Whether roles meet the reduced exclusions.
ghost use Rattle.std.specs.Prelude.{◌≡◌};
ghost use Rattle.query_reduced.specs.Met.{reduced_met as reduced_met_of};

use crate::reduced::ReducedExclusion;

// Of each reduced exclusion fewer than n members are among the roles s. Exclusions as the policy has them are another
// type with a definition of its own (`few_in` of ledger).
pub fn reduced_met(exclusions: &[ReducedExclusion], s: u64) -> bool
    ensures { result ≡ reduced_met_of exclusions.now s }
{
    exclusions.iter().all(|x| sets::fewer(x.members, s, x.n))
}
