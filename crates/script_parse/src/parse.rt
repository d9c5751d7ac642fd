// The call that a line is. Each function that takes `words` reads them up to the end of the line; no word is read as a
// number or a bound before the line is known to have as many words as its form.
ghost use Rattle.std.specs.Prelude.{◌≡◌, [], ◌∷◌};
ghost use Rattle.model_script.specs.Script.{ascii, call_of, parse as parse_of};
ghost use Rattle.script_lines.specs.Cutting.{words_left};
ghost use Rattle.script_parse.specs.Reading.{two_numbers, call_in};

use crate::Call;
use script_lines::lines::Words;
use script_numerals::numerals::{decimal, hexadecimal};

// A user and a session, and no more words.
fn user_and_session(words: &mut Words) -> Option<(u64, u64)>
    ensures { result ≡ two_numbers (words_left words.old) }
{
    let user = words.next()?;
    let session = words.next()?;
    words.end()?;
    Some((decimal(user)?, decimal(session)?))
}

// What stands behind `open`.
fn open(words: &mut Words) -> Option<Call>
    ensures { call_in result ≡ call_of (ascii "open" ∷ words_left words.old) }
{
    let user = words.next()?;
    words.end()?;
    Some(Call::Open {
        user: decimal(user)?,
    })
}

// What stands behind `close`.
fn close(words: &mut Words) -> Option<Call>
    ensures { call_in result ≡ call_of (ascii "close" ∷ words_left words.old) }
{
    let (user, session) = user_and_session(words)?;
    Some(Call::Close { user, session })
}

// What stands behind `show`.
fn show(words: &mut Words) -> Option<Call>
    ensures { call_in result ≡ call_of (ascii "show" ∷ words_left words.old) }
{
    let (user, session) = user_and_session(words)?;
    Some(Call::Show { user, session })
}

// The words behind `ask` where the objectives are left out.
fn short_ask(user: &[u8], session: &[u8], lower: &[u8], upper: &[u8]) -> Option<Call>
    ensures { call_in result ≡ call_of (ascii "ask" ∷ user.now ∷ session.now ∷ lower.now ∷ upper.now ∷ []) }
{
    Some(Call::ShortAsk {
        user: decimal(user)?,
        session: decimal(session)?,
        lower: hexadecimal(lower)?,
        upper: hexadecimal(upper)?,
    })
}

// What stands behind `ask`: the objectives may be left out.
fn ask(words: &mut Words) -> Option<Call>
    ensures { call_in result ≡ call_of (ascii "ask" ∷ words_left words.old) }
{
    let user = words.next()?;
    let session = words.next()?;
    let lower = words.next()?;
    let upper = words.next()?;
    if words.end().is_some() {
        return short_ask(user, session, lower, upper);
    }
    let first = words.next()?;
    let second = words.next()?;
    words.end()?;
    Some(Call::Ask {
        user: decimal(user)?,
        session: decimal(session)?,
        lower: hexadecimal(lower)?,
        upper: hexadecimal(upper)?,
        first: decimal(first)?,
        second: decimal(second)?,
    })
}

// The call that a line is, none where it is unreadable.
pub fn parse(line: &[u8]) -> Option<Call>
    ensures { call_in result ≡ parse_of line.now }
{
    let mut words = Words::of(line);
    let keyword = words.next()?;
    // Each comparison is of a whole word; a `match` on bytes would branch at each byte, with a proof at each branch.
    if keyword == b"open".as_slice() {
        open(&mut words)
    } else if keyword == b"close".as_slice() {
        close(&mut words)
    } else if keyword == b"show".as_slice() {
        show(&mut words)
    } else if keyword == b"ask".as_slice() {
        ask(&mut words)
    } else {
        None
    }
}
