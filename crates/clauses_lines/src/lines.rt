// Literals, and the lines of clauses. Inside the buffer a line or a literal is set after one test of the room, behind
// its end only its width is counted.
ghost use Rattle.std.specs.Prelude.{◌≡◌, true, [], ◌∷◌, ◌+◌, ◌≤◌, ◌<◌, length};
ghost use Rattle.model.specs.Clauses.{must, must_not, gives, give};
ghost use Rattle.model.specs.Dimacs.{literal_text};
ghost use Rattle.clauses_bytes.specs.Putting.{Puts, Sets};
ghost use Rattle.clauses_lines.specs.Lines.{line_of};
ghost use Rattle.clauses_lines.specs.Literals.{literal_of, Short};

use clauses_bytes::bytes::{
    has_room, is_full, packed_width, put_all, put_long, put_packed, set_all, set_packed, set_six,
    width,
};

// The buffer and the place of the next byte are two parameters, for the reason in clauses_bytes/src/bytes.rt.

// ---- literals

// A variable that is to be true, or one that is to be false.
#[derive(Clone, Copy)]
pub enum Literal {
    Holds(usize),
    Fails(usize),
}

impl Literal {
    // Its variable has at most six digits.
    fn is_short(self) -> bool
        ensures { result ≡ true → Short self }
    {
        match self {
            Literal::Holds(x) => x < 1000000,
            Literal::Fails(x) => x < 1000000,
        }
    }

    // How long its text is.
    #[tactic(auto, using(crate::proofs::LineLaws::holds_width, crate::proofs::LineLaws::fails_width))]
    fn width(self) -> usize
        requires { Short self }
        ensures { (result ≡ length (literal_text (literal_of self))) × (result ≤ 8) }
    {
        match self {
            Literal::Holds(x) => 1 + width(x),
            Literal::Fails(x) => 2 + width(x),
        }
    }
}

// Sets a literal.
#[inline(always)]
fn set_literal(out: &mut [u8], at: usize, literal: Literal) -> usize
    requires { (Short literal) × (at + 8 ≤ length out.old) }
    ensures { Sets out.old at 8 (literal_text (literal_of literal)) out.new result }
{
    match literal {
        Literal::Holds(x) => {
            let digits = set_all(out, at, b" ");
            set_six(out, digits, x)
        }
        Literal::Fails(x) => {
            let digits = set_all(out, at, b" -");
            set_six(out, digits, x)
        }
    }
}

// Puts a literal.
pub fn put_literal(out: &mut [u8], at: usize, literal: Literal) -> usize
    ensures { Puts out.old at (literal_text (literal_of literal)) out.new result }
{
    if literal.is_short() {
        if has_room(out, at, 8) {
            return set_literal(out, at, literal);
        }
        if is_full(out, at) {
            return at + literal.width();
        }
    }
    match literal {
        Literal::Holds(x) => {
            let digits = put_all(out, at, b" ");
            put_long(out, digits, x)
        }
        Literal::Fails(x) => {
            let digits = put_all(out, at, b" -");
            put_long(out, digits, x)
        }
    }
}

// ---- lines: the weight w is a packed text. A line is written out for each number of literals: a loop over a slice or
// an array of them takes a third longer.

// Puts the end of a line.
pub fn put_end(out: &mut [u8], at: usize) -> usize
    ensures { Puts out.old at (32 ∷ 48 ∷ 10 ∷ []) out.new result }
{
    if has_room(out, at, 3) {
        return set_all(out, at, b" 0\n");
    }
    if is_full(out, at) {
        return at + 3;
    }
    put_all(out, at, b" 0\n")
}

// Puts the clause of one literal.
fn put_one(out: &mut [u8], at: usize, w: usize, literal: Literal) -> usize
    ensures { Puts out.old at (line_of w (literal_of literal ∷ [])) out.new result }
{
    if literal.is_short() && has_room(out, at, 16) {
        let a = set_packed(out, at, w);
        let b = set_literal(out, a, literal);
        return set_all(out, b, b" 0\n");
    }
    let a = put_packed(out, at, w);
    let b = put_literal(out, a, literal);
    put_end(out, b)
}

// Puts the clause that x is true.
pub fn put_must(out: &mut [u8], at: usize, w: usize, x: usize) -> usize
    ensures { Puts out.old at (line_of w (must x)) out.new result }
{
    put_one(out, at, w, Literal::Holds(x))
}

// Puts the clause that x is false.
pub fn put_must_not(out: &mut [u8], at: usize, w: usize, x: usize) -> usize
    ensures { Puts out.old at (line_of w (must_not x)) out.new result }
{
    put_one(out, at, w, Literal::Fails(x))
}

// Puts the clause that x implies y.
pub fn put_implies(out: &mut [u8], at: usize, w: usize, x: usize, y: usize) -> usize
    ensures { Puts out.old at (line_of w (gives x y)) out.new result }
{
    let first = Literal::Fails(x);
    let second = Literal::Holds(y);
    if first.is_short() && second.is_short() {
        if has_room(out, at, 24) {
            let a = set_packed(out, at, w);
            let b = set_literal(out, a, first);
            let c = set_literal(out, b, second);
            return set_all(out, c, b" 0\n");
        }
        if is_full(out, at) {
            return at + packed_width(w) + first.width() + second.width() + 3;
        }
    }
    let a = put_packed(out, at, w);
    let b = put_literal(out, a, first);
    let c = put_literal(out, b, second);
    put_end(out, c)
}

// Puts the clause that x and y together imply z.
pub fn put_both_imply(out: &mut [u8], at: usize, w: usize, x: usize, y: usize, z: usize) -> usize
    ensures { Puts out.old at (line_of w (give x y z)) out.new result }
{
    let first = Literal::Fails(x);
    let second = Literal::Fails(y);
    let third = Literal::Holds(z);
    if first.is_short() && second.is_short() && third.is_short() {
        if has_room(out, at, 32) {
            let a = set_packed(out, at, w);
            let b = set_literal(out, a, first);
            let c = set_literal(out, b, second);
            let d = set_literal(out, c, third);
            return set_all(out, d, b" 0\n");
        }
        if is_full(out, at) {
            return at + packed_width(w) + first.width() + second.width() + third.width() + 3;
        }
    }
    let a = put_packed(out, at, w);
    let b = put_literal(out, a, first);
    let c = put_literal(out, b, second);
    let d = put_literal(out, c, third);
    put_end(out, d)
}
