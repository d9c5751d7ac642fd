// Lines cut into words.
ghost use Rattle.std.specs.Prelude.{◌≡◌, length};
ghost use Rattle.std.specs.Iterator.{YieldsFirstRef, item_count};
ghost use Rattle.model_script.specs.Script.{words};
ghost use Rattle.script_lines.specs.Cutting.{words_left, nothing_left};

// The words of a line that are left, one blank between two; `rest` is none behind the last word.
#[derive(Clone, Copy)]
pub struct Words<'a> {
    pub rest: Option<&'a [u8]>,
}

impl<'a> Iterator for Words<'a> {
    type Item = &'a [u8];

    ghost next_gives = { YieldsFirstRef words_left };

    ghost remaining = { item_count words_left };

    fn next(&mut self) -> Option<&'a [u8]> {
        let rest = self.rest?;
        match rest.iter().position(|c| *c == b' ') {
            Some(end) => {
                self.rest = Some(&rest[end + 1..]);
                Some(&rest[..end])
            }
            None => {
                self.rest = None;
                Some(rest)
            }
        }
    }
}

impl<'a> Words<'a> {
    // The words of a line.
    pub fn of(line: &'a [u8]) -> Words<'a>
        ensures { words_left result ≡ words line.now }
    {
        Words { rest: Some(line) }
    }

    // None where a word is left, so that `?` refuses a line of more words than its form has.
    pub fn end(&self) -> Option<()>
        ensures { result ≡ nothing_left (words_left self.now) }
    {
        match self.rest {
            Some(_) => None,
            None => Some(()),
        }
    }
}
