// 64 words of 64 bits transposed, by exchanges of bits between rows that are 32, 16, 8, 4, 2 and 1 apart.
ghost use Rattle.std.specs.Prelude.{◌≡◌, true, ◌+◌, ◌≤◌, ◌<◌, length};
ghost use Rattle.model.specs.Sets.{has};
ghost use Rattle.grant_table_words.specs.Stages.{marks, low_row as low_row_of, high_row as high_row_of, paired, MarkedFrom, Blocked, Exchanged, Transposed};

// A step of the transposition: bits are exchanged between rows that are so far apart, with those as far apart in the
// row, and the mask marks the lower row and the lower bit of each two.
#[derive(Clone, Copy)]
struct Step {
    distance: usize,
    mask: u64,
    ghost apart: { 0 < distance },
    ghost within: { distance < 64 },
    ghost marked: { marks distance mask ≡ true },
}

const BY_32: Step = Step {
    distance: 32,
    mask: 0x00000000FFFFFFFF,
};

const BY_16: Step = Step {
    distance: 16,
    mask: 0x0000FFFF0000FFFF,
};

const BY_8: Step = Step {
    distance: 8,
    mask: 0x00FF00FF00FF00FF,
};

const BY_4: Step = Step {
    distance: 4,
    mask: 0x0F0F0F0F0F0F0F0F,
};

const BY_2: Step = Step {
    distance: 2,
    mask: 0x3333333333333333,
};

const BY_1: Step = Step {
    distance: 1,
    mask: 0x5555555555555555,
};

impl Step {
    // A marked row after an exchange with the one further on.
    fn low_row(self, own: u64, other: u64) -> u64
        ensures { result ≡ low_row_of self.distance self.mask own other }
    {
        let m = self.mask;
        (own & m) | ((other & m) << self.distance)
    }

    // A row that is not marked, after an exchange with the one before it.
    fn high_row(self, own: u64, other: u64) -> u64
        ensures { result ≡ high_row_of self.distance self.mask own other }
    {
        let m = self.mask;
        ((other >> self.distance) & m) | (own & (m << self.distance))
    }

    // The marked row k and the one further on, after an exchange.
    fn pair(self, a: &[u64; 64], k: usize, out: &mut [u64; 64])
        requires { (k + self.distance < 64) × (has self.mask k ≡ true) }
        ensures { out.new ≡ paired self.distance self.mask a.now k out.old }
    {
        let low = a[k];
        let high = a[k + self.distance];
        out[k] = self.low_row(low, high);
        out[k + self.distance] = self.high_row(high, low);
    }

    // The marked rows from a place on, as many as the rows are apart, and those behind them, after an exchange.
    fn block(self, a: &[u64; 64], from: usize, out: &mut [u64; 64])
        requires { (from + self.distance + self.distance ≤ 64) × (MarkedFrom self.distance self.mask from) }
        ensures { Blocked self.distance self.mask from (from + self.distance) a.now out.old out.new }
    {
        // The number is that of two rows in each of two tables: there is no one table to walk.
        for k in from..from + self.distance {
            self.pair(a, k, out);
        }
    }

    // All rows after an exchange, block by block: rows that stand together are exchanged together.
    fn exchange(self, a: &[u64; 64], out: &mut [u64; 64])
        ensures { (Exchanged self.distance self.mask a.now out.new) × (length out.new ≡ 64) }
    {
        // A turn takes the rows of two blocks, in two tables, so the number is where they begin.
        for from in (0..64usize).step_by(2 * self.distance) {
            self.block(a, from, out);
        }
    }
}

// Bit c of word k at bit k of word c. Two buffers take turns, so that nothing is copied between the exchanges.
pub fn transpose(a: &[u64; 64]) -> [u64; 64]
    ensures { Transposed a.now result }
{
    let mut b = [0u64; 64];
    let mut c = [0u64; 64];
    BY_32.exchange(a, &mut b);
    BY_16.exchange(&b, &mut c);
    BY_8.exchange(&c, &mut b);
    BY_4.exchange(&b, &mut c);
    BY_2.exchange(&c, &mut b);
    BY_1.exchange(&b, &mut c);
    c
}
