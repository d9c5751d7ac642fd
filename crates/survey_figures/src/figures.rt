// Lines of figures, written into a buffer.
ghost use Rattle.std.specs.Prelude.{[], ◌∷◌, ◌+◌, ◌*◌, ◌≤◌, length};
ghost use Rattle.script_text.specs.Writing.{Writes};
ghost use Rattle.model_survey.specs.Survey.{two_figures, four_figures};
ghost use Rattle.survey_figures.specs.Figures.{figures_from};

use script_text::Writer;
use script_text_lines::{put_first, put_number};

// Writes a line of figures, one blank between two.
pub fn put_figures(text: &mut Writer, first: u64, others: &[u64])
    requires { text.old.at + 21 * length others.now + 21 ≤ length text.old.out.now }
    ensures { (Writes text.old text.new (figures_from first others.now))
        × (text.new.at ≤ text.old.at + 21 * length others.now + 21) }
{
    put_first(text, first);
    for figure in others {
        put_number(text, *figure);
    }
    text.put(b'\n');
}

// Writes a line of two figures.
pub fn put_two(text: &mut Writer, a: u64, b: u64)
    requires { text.old.at + 42 ≤ length text.old.out.now }
    ensures { (Writes text.old text.new (two_figures a b)) × (text.new.at ≤ text.old.at + 42) }
{
    put_figures(text, a, &[b]);
}

// Writes a line of four figures.
pub fn put_four(text: &mut Writer, a: u64, b: u64, c: u64, d: u64)
    requires { text.old.at + 84 ≤ length text.old.out.now }
    ensures { (Writes text.old text.new (four_figures a b c d)) × (text.new.at ≤ text.old.at + 84) }
{
    put_figures(text, a, &[b, c, d]);
}
