// The numbers of an exclusion's kind in an image, and a table of exclusions.
#![tactic(auto)]

ghost use Rattle.std.specs.Prelude.{◌≡◌, ◌≤◌, length, replicate, take};
ghost use Rattle.model.specs.Image.{kind_of};
ghost use Rattle.model.specs.Policy.{kind_number};

use model::{Exclusion, Kind};

// The kind that has a number in an image. The definition has a kind for each number, so that this is no TryFrom: it
// would have an error that no caller meets.
pub fn kind_of(k: u8) -> Kind
    ensures { result ≡ kind_of k }
{
    match k {
        0 => Kind::SsDmer,
        1 => Kind::MsDmer,
        2 => Kind::SsHmer,
        _ => Kind::MsHmer,
    }
}

// The number of a kind in an image. A match has them: Kind is the model's, whose definition `kind_number` has them too.
pub fn number_of(kind: Kind) -> u8
    ensures { result ≡ kind_number kind }
{
    match kind {
        Kind::SsDmer => 0,
        Kind::MsDmer => 1,
        Kind::SsHmer => 2,
        Kind::MsHmer => 3,
    }
}

// ---- the table

// The exclusions of a policy, in image order: the first `count` rows. That there are 32 is a fact of the type, since
// proofs know the length of an array by itself only where its elements are numbers. `Reduced` of query_reduced has
// another element: one generic table would need Clone and Copy by hand, for a method of one line.
#[derive(Clone, Copy)]
pub struct ExclusionTable {
    pub rows: [Exclusion; 32],
    pub count: usize,
    ghost few: { (count ≤ 32) × (length rows ≡ 32) },
}

impl ExclusionTable {
    // No exclusion.
    pub fn new() -> Self
        ensures { (result.rows ≡ replicate 32 (record { kind = Kind.SsDmer; n = 0; members = 0 })) × (result.count ≡ 0) }
    {
        let none = Exclusion {
            kind: Kind::SsDmer,
            n: 0,
            members: 0,
        };
        ExclusionTable {
            rows: [none; 32],
            count: 0,
        }
    }

    // The exclusions as a slice.
    pub fn listed(&self) -> &[Exclusion]
        ensures { result.now ≡ take self.now.count self.now.rows }
    {
        &self.rows[..self.count]
    }
}
