// Sets of either kind by how many members they have, and by a number above them all.
ghost use Rattle.std.specs.Prelude.{◌≡◌, ℕ, ◌^◌, ◌≤◌, ltb};
ghost use Rattle.model.specs.Sets.{count};
ghost use Rattle.sets.specs.Words.{value};
ghost use Rattle.std.proofs.Common.{rules};

// A set of numbers in machine words: role sets in one word, permission sets in four.
pub trait Counted: Copy {
    // the set as the model has it, and the number below which its members are
    ghost as_set: { Self → ℕ };

    ghost top: { ℕ };

    // How many members the set has.
    fn size(self) -> u32
        ensures { result ≡ count top (as_set self) };

    // The set has numbers below n alone.
    fn below(self, n: u16) -> bool
        ensures { result ≡ ltb (as_set self) (2 ^ n) };

    ghost small: { top ≤ 256 };
}

impl Counted for u64 {
    ghost as_set = { λ s. s };

    ghost top = { 64 };

    ghost small = { Prim.search rules };

    fn size(self) -> u32 {
        crate::size(self)
    }

    fn below(self, n: u16) -> bool {
        n >= 64 || self < 1 << n
    }
}

impl Counted for [u64; 4] {
    ghost as_set = { value };

    ghost top = { 256 };

    ghost small = { Prim.search rules };

    fn size(self) -> u32 {
        crate::perm_size(self)
    }

    // The words begin at the numbers 0, 64, 128 and 192.
    fn below(self, n: u16) -> bool {
        let low = self[0].below(n) & self[1].below(n.saturating_sub(64));
        low & self[2].below(n.saturating_sub(128)) & self[3].below(n.saturating_sub(192))
    }
}
