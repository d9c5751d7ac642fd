// The text of an ask, written if it fits.
ghost use Rattle.std.specs.Prelude.{◌≤◌, ℕ, length};
ghost use Rattle.model_clauses.specs.Texts.{TEXT_ROOM};
ghost use Rattle.clauses.specs.Writing.{Needs, Written};
ghost use Rattle.clauses_text.specs.Whole.{text_with};
ghost use Rattle.query_rank.specs.Objectives.{Stands};
ghost use Rattle.query_reduced.specs.Reduction.{listed};

use clauses_hard::question::Question;
use clauses_text::whole::put_text;
use query_reduced::reduced::Reduced;

// What the text needs of a buffer of this length: nothing where every text fits, else its length, by a walk that writes
// nothing.
fn needed(buffer: usize, rows: &[[u64; 4]; 64], q: Question, exclusions: &Reduced) -> usize
    ensures { (a b : ℕ) → Stands q.first a → Stands q.second b
        → (let text = text_with a b q rows.now (listed exclusions.now) in length text ≤ TEXT_ROOM → Needs buffer text result) }
{
    if 8388608 <= buffer {
        return 0;
    }
    put_text(&mut [], 0, rows, q, exclusions)
}

// The length of the text, which is written to the front of the buffer if it fits; the text by each two numbers that
// stand for the objectives.
pub fn write(out: &mut [u8], rows: &[[u64; 4]; 64], q: Question, exclusions: &Reduced) -> usize
    ensures { (a b : ℕ) → Stands q.first a → Stands q.second b
        → (let text = text_with a b q rows.now (listed exclusions.now) in length text ≤ TEXT_ROOM → Written out.old text out.new result) }
{
    let size = needed(out.len(), rows, q, exclusions);
    if out.len() < size {
        return size;
    }
    put_text(out, 0, rows, q, exclusions)
}
