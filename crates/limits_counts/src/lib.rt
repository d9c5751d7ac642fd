// A count for each role, kept in words: bit r of the plane for 2^i is bit i of the count of role r. A word adds one to
// each of its roles with a few operations on whole words.
#![tactic(auto)]

ghost use Rattle.std.specs.Prelude.{◌≡◌, ℕ, ◌+◌, ◌<◌};
ghost use Rattle.model.specs.Sets.{has, one};
ghost use Rattle.limits_counts.specs.Counted.{count_at};

use model::Role;

// Ten planes: no role is active in more than 512 sessions.
#[derive(Clone, Copy)]
pub struct Counts {
    pub planes: [u64; 10],
}

impl Counts {
    // Nothing counted.
    pub fn none() -> Counts
        ensures { (r : ℕ) → count_at result r ≡ 0 }
    {
        Counts { planes: [0; 10] }
    }

    // Each role of the word counts one more. Most sessions have no role active.
    pub fn with(self, word: u64) -> Counts
        ensures { (r : ℕ) → count_at self r < 1023 → count_at result r ≡ count_at self r + one (has word r) }
    {
        if word == 0 {
            return self;
        }
        let mut planes = self.planes;
        let mut carried = word;
        for plane in planes.iter_mut() {
            let next = *plane & carried;
            *plane ^= carried;
            carried = next;
        }
        Counts { planes }
    }

    // The count of role r.
    pub fn of(self, r: Role) -> u64
        requires { r.0 < 64 }
        ensures { result ≡ count_at self r.0 }
    {
        let mut count: u64 = 0;
        for (i, plane) in self.planes.iter().enumerate() {
            count += u64::from(sets::has(*plane, r)) << i;
        }
        count
    }
}
