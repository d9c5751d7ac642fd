// The words of a policy's tables and exclusions: a word for each bit of a table, and for each exclusion its word and
// its members.
ghost use Rattle.std.specs.Prelude.{◌+◌, ◌*◌, ◌^◌, ◌<◌, ◌≤◌, map};
ghost use Rattle.model_tidy.specs.Groups.{spread};
ghost use Rattle.model_tidy.specs.Tidy.{exclusion_group};
ghost use Rattle.exclusion_rows.specs.Table.{exclusion_list};
ghost use Rattle.tidy_words.specs.Buffers.{written, Puts, Room, set_words};
ghost use Rattle.tidy_words.specs.Tables.{word_by, table_words, Table, exclusion_words, limit_row, limit_words, Limited};

use crate::words::Writer;
use exclusion_rows::{ExclusionTable, number_of};
use model::{Exclusion, Role, layout};
use sets::counted::Counted;

// A set that is a row of a table, as words: a first word, and so many units more as a member's number says.
pub trait Row: Counted {
    // Writes a word for each member, ascending.
    fn put(self, out: &mut Writer, first: u32, unit: u32)
        requires { (first + Self.top * unit ≤ 2 ^ 32) × Room (written out.old) (set_words Self.top first unit (Self.as_set self)) }
        ensures { Puts out.old out.new (set_words Self.top first unit (Self.as_set self)) };
}

impl Row for u64 {
    fn put(self, out: &mut Writer, first: u32, unit: u32) {
        out.put_set(first, unit, self);
    }
}

impl Row for [u64; 4] {
    fn put(self, out: &mut Writer, first: u32, unit: u32) {
        out.put_set(first, unit, self[0]);
        out.put_set(first + 64 * unit, unit, self[1]);
        out.put_set(first + 128 * unit, unit, self[2]);
        out.put_set(first + 192 * unit, unit, self[3]);
    }
}

impl<'a> Writer<'a> {
    // ---- tables of sets

    // The words of the first n rows of a table, of which no other has members: row i, then its members.
    pub fn put_table<S: Row>(&mut self, first: u32, unit: u32, rows: &[S], n: usize)
        requires { (n ≤ 64) × (first + 63 * 4194304 < 2 ^ 32) × (first + 63 * 4194304 + S.top * unit ≤ 2 ^ 32) × Table n (map S.as_set rows.now)
            × Room (written self.old) (table_words (word_by first unit) S.top (map S.as_set rows.now) 0) }
        ensures { Puts self.old self.new (table_words (word_by first unit) S.top (map S.as_set rows.now) 0) }
    {
        for (i, row) in rows[..n].iter().enumerate() {
            row.put(self, first + layout::FIRST_UNIT * (i as u32), unit);
        }
    }

    // ---- exclusions

    // An exclusion word and its members, ascending.
    fn put_exclusion(&mut self, x: Exclusion)
        requires { Room (written self.old) (exclusion_words x) }
        ensures { Puts self.old self.new (exclusion_words x) }
    {
        let kind = x.kind;
        let k = number_of(kind) as u32;
        let n = x.n as u32;
        let m = sets::size(x.members);
        self.put_word(
            layout::EXCLUSION_WORD
                + layout::WHICH_UNIT * k
                + layout::N_UNIT * n
                + layout::M_UNIT * m,
        );
        self.put_set(layout::MEMBER_WORD, layout::FIRST_UNIT, x.members);
    }

    // The exclusions of a table, in their order.
    pub fn put_exclusions(&mut self, xs: &ExclusionTable)
        requires { Room (written self.old) (spread (map exclusion_group (exclusion_list xs.now))) }
        ensures { Puts self.old self.new (spread (map exclusion_group (exclusion_list xs.now))) }
    {
        for x in xs.listed() {
            self.put_exclusion(*x);
        }
    }

    // ---- limits

    // The word for the limit t of role r, where it has one.
    fn put_limit(&mut self, r: Role, t: u64)
        requires { (r.0 < 64) × (t ≤ 256) × Room (written self.old) (limit_row r.0 t) }
        ensures { Puts self.old self.new (limit_row r.0 t) }
    {
        if t != 0 {
            self.put_word(
                layout::LIMIT_WORD
                    + layout::FIRST_UNIT * (r.0 as u32)
                    + layout::T_UNIT * (t as u32),
            );
        }
    }

    // The words for the limits of the first n roles; no other has one.
    pub fn put_limits(&mut self, limits: &[u64; 64], n: usize)
        requires { (n ≤ 64) × Limited n limits.now × Room (written self.old) (limit_words limits.now 0) }
        ensures { Puts self.old self.new (limit_words limits.now 0) }
    {
        for (r, t) in limits[..n].iter().enumerate() {
            self.put_limit(Role(r as u8), *t);
        }
    }
}
