// The words of the whole image: counted, and written where there is room for them.
ghost use Rattle.std.specs.Prelude.{◌≡◌, ◌*◌, ◌^◌, ◌<◌, ◌≤◌, length};
ghost use Rattle.model.specs.Words.{head_word as head_word_of, end_word as end_word_of, ended, image_bytes};
ghost use Rattle.exclusion_rows.specs.Table.{exclusion_list};
ghost use Rattle.octets.specs.Splice.{splice};
ghost use Rattle.tidy_words.specs.Buffers.{written, Puts, Room};
ghost use Rattle.tidy_words.specs.Tables.{Limited};
ghost use Rattle.tidy_words.specs.Whole.{rest_words, words_of, FittedTables};

use crate::count::{count_exclusions, count_limits, count_table};
use crate::words::Writer;
use exclusion_rows::ExclusionTable;
use model::{Head, layout};
use policy_tables::PolicyTables;

// ---- the first word and the last

fn head_word(h: Head) -> u32
    ensures { result ≡ head_word_of h.users h.roles h.permissions }
{
    layout::HEAD_WORD
        + layout::USERS_UNIT * (h.users as u32)
        + layout::ROLES_UNIT * (h.roles as u32)
        + layout::PERMISSIONS_UNIT * (h.permissions as u32)
}

// The end word that balances words with this sum.
fn end_word(sum: u32) -> u32
    ensures { result ≡ end_word_of sum }
{
    layout::END_WORD + (layout::KIND_UNIT - sum % layout::KIND_UNIT) % layout::KIND_UNIT
}

// ---- all words

// An image is written from the tables as it states them: a user's row in `authorized` has the roles that are assigned,
// and a role's row in `below` its direct juniors. The exclusions come in a table of their own, in the order that they
// get in the image.

// How many words the image has, head and end among them.
pub fn count_words(tables: &PolicyTables, xs: &ExclusionTable) -> usize
    requires { FittedTables tables.now }
    ensures { (result < 2 ^ 43) × (result ≡ length (ended (words_of tables.now (exclusion_list xs.now)))) }
{
    let users = tables.head.users as usize;
    let roles = tables.head.roles as usize;
    let a = count_table(&tables.authorized, users);
    let g = count_table(&tables.granted, roles);
    let j = count_table(&tables.below, roles);
    let x = count_exclusions(xs);
    let l = count_limits(&tables.limits, roles);
    2 + a + g + j + x + l
}

impl<'a> Writer<'a> {
    // Writes the words of the exclusions, and those of the limits of so many roles.
    fn put_rest(&mut self, xs: &ExclusionTable, limits: &[u64; 64], roles: usize)
        requires { (roles ≤ 64) × Limited roles limits.now × Room (written self.old) (rest_words (exclusion_list xs.now) limits.now) }
        ensures { Puts self.old self.new (rest_words (exclusion_list xs.now) limits.now) }
    {
        self.put_exclusions(xs);
        self.put_limits(limits, roles);
    }

    // Writes the words from the head to the last before the end.
    fn put_body(&mut self, tables: &PolicyTables, xs: &ExclusionTable)
        requires { FittedTables tables.now × Room (written self.old) (words_of tables.now (exclusion_list xs.now)) }
        ensures { Puts self.old self.new (words_of tables.now (exclusion_list xs.now)) }
    {
        let users = tables.head.users as usize;
        let roles = tables.head.roles as usize;
        self.put_word(head_word(tables.head));
        self.put_table(
            layout::KIND_UNIT * layout::ASSIGNMENT,
            layout::SECOND_UNIT,
            &tables.authorized,
            users,
        );
        self.put_table(
            layout::GRANT_WORD,
            layout::PERMISSION_UNIT,
            &tables.granted,
            roles,
        );
        self.put_table(
            layout::KIND_UNIT * layout::SENIOR,
            layout::SECOND_UNIT,
            &tables.below,
            roles,
        );
        self.put_rest(xs, &tables.limits, roles);
    }
}

// Writes the whole image at the front of the buffer.
pub fn put_image(out: &mut [u8], tables: &PolicyTables, xs: &ExclusionTable)
    requires { FittedTables tables.now × (4 * length (ended (words_of tables.now (exclusion_list xs.now))) ≤ length out.old) }
    ensures { out.new ≡ splice out.old 0 (image_bytes (ended (words_of tables.now (exclusion_list xs.now)))) }
{
    let mut w = Writer { out, at: 0, sum: 0 };
    w.put_body(tables, xs);
    let sum = w.sum;
    w.put_word(end_word(sum));
}
