// The tidy image as a whole: its exclusions sorted, its words counted, and written where there is room for them.
ghost use Rattle.reasons.specs.Numbers.{returned_by};
ghost use Rattle.model_tidy.specs.Tidy.{tidy_by};
ghost use Rattle.tidy_words.specs.Whole.{FittedTables};
ghost use Rattle.tidy.specs.Whole.{policy_held, Writes};

use model::Checked;
use policy_tables::PolicyTables;
use reasons::{Reason, Refusal};
use tidy_order::sort::sort;
use tidy_words::image::{count_words, put_image};

// The tidy image of the policy that the tables state, at the front of the buffer: the number of its words, or that the
// buffer is too small for them. The tables are those that the image's words state: `authorized` has the roles that are
// assigned to each user, and `below` the direct juniors of each role.
pub fn tidy(tables: &PolicyTables, out: &mut [u8]) -> Result<u64, Refusal>
    requires { FittedTables tables.now }
    ensures { Writes (tidy_by (Checked.Accepted tables.now.head) (policy_held tables.now) out.old) (returned_by result) out.new }
{
    let sorted = sort(&tables.exclusions);
    let words = count_words(tables, &sorted);
    if out.len() < 4 * words {
        return Err(Reason::Room.into());
    }
    put_image(out, tables, &sorted);
    Ok(words as u64)
}
