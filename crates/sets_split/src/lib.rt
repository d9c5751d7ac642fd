// Where a permission stands in a permission set of four words.
#![tactic(auto)]

ghost use Rattle.std.specs.Prelude.{◌≡◌, ◌+◌, ◌*◌, ◌<◌};
ghost use Rattle.sets_split.specs.Split.{Splits};

use model::Permission;

// Where a permission stands: bit `bit` of the word at `place` of the four.
#[derive(Clone, Copy)]
pub struct Spot {
    pub place: usize,
    pub bit: u8,
}

// There are 256 permissions, so that three comparisons find the place, and a subtraction the bit.
pub fn split(p: Permission) -> Spot
    ensures { Splits p.0 result.place result.bit }
{
    let n = p.0;
    if n < 64 {
        return Spot { place: 0, bit: n };
    }
    if n < 128 {
        return Spot {
            place: 1,
            bit: n - 64,
        };
    }
    if n < 192 {
        return Spot {
            place: 2,
            bit: n - 128,
        };
    }
    Spot {
        place: 3,
        bit: n - 192,
    }
}

// The permission that stands there.
pub fn permission_at(place: usize, bit: u8) -> Permission
    requires { (place < 4) × (bit < 64) }
    ensures { result.0 ≡ place * 64 + bit }
{
    Permission(64 * (place as u8) + bit)
}
