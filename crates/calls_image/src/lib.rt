// The calls on an image alone, over byte slices.
#![tactic(auto)]

ghost use Rattle.std.specs.Prelude.{◌≡◌, length};
ghost use Rattle.model.specs.Image.{check_number};
ghost use Rattle.model.specs.Judgement.{judge};
ghost use Rattle.model.specs.Loop.{loop_call};
ghost use Rattle.hierarchy.specs.Replies.{Replies};
ghost use Rattle.tidy.specs.Whole.{Writes};
ghost use Rattle.model_tidy.specs.Tidy.{tidy_call};
ghost use Rattle.grant_table.specs.TableCalls.{table_call};

use policy_tables::PolicyTables;
use reasons::{refused, returned};
use tables::read::{read, read_direct};

// Judges an image.
pub fn check_image(image: &[u8]) -> u64
    ensures { result ≡ check_number (judge image.now) }
{
    refused(tables::judge::judge(image))
}

// Shows the shortest loop of the lowest role on one.
pub fn show_loop(image: &[u8], chain: &mut [u8]) -> u64
    ensures { Replies (loop_call image.now (length chain.old)) result chain.old chain.new }
{
    let mut assigned = [0u64; 64];
    let mut juniors = [0u64; 64];
    let outcome = image::check::check(image, &mut assigned, &mut juniors);
    let Ok(head) = outcome else {
        return refused(outcome);
    };
    returned(hierarchy_loop::chain::show_loop(&juniors, head.roles, chain))
}

// Writes the tidy image of the image's policy at the front of the buffer. Here as in each call the judgement of the
// image is taken apart by `let .. else` (docs/ACCEPTANCE.md).
pub fn write_tidy(image: &[u8], out: &mut [u8]) -> u64
    ensures { Writes (tidy_call image.now out.old) result out.new }
{
    let mut policy = PolicyTables::new();
    let outcome = read_direct(image, &mut policy);
    let Ok(()) = outcome else {
        return refused(outcome);
    };
    returned(tidy::whole::tidy(&policy, out))
}

// Fills the buffer with the closed grant table.
pub fn fill_table(image: &[u8], table: &mut [u8]) -> u64
    ensures { Replies (table_call image.now (length table.old)) result table.old table.new }
{
    let mut policy = PolicyTables::new();
    let outcome = read(image, &mut policy);
    let Ok(()) = outcome else {
        return refused(outcome);
    };
    refused(grant_table::table::grant_table(&policy.grants(), policy.head.roles, table))
}
