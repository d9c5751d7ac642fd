// The reduced exclusions.
ghost use Rattle.std.specs.Prelude.{◌≤◌};

// An exclusion by the members that are not counted yet and by its n less those that are: fewer than n of the members
// may still join.
#[derive(Clone, Copy)]
pub struct ReducedExclusion {
    pub members: u64,
    pub n: u32,
}

// The reduced exclusions: the first `count` rows. One generic table for these and for `ExclusionTable` is no plainer:
// no derive copies it, so that Clone and Copy would be written by hand, for a method of one line.
#[derive(Clone, Copy)]
pub struct Reduced {
    pub rows: [ReducedExclusion; 32],
    pub count: usize,
    ghost few: { count ≤ 32 },
}
