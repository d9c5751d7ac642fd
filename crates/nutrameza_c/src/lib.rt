// The calls of the session kit as a static library for C hosts: each export calls the library's function of its name
// and promises the same. Numbers are u64, a slice is a pointer and a length. The clauses stand here a second time since
// a library exports nothing and a static library is no library (docs/DECISIONS.md, 143).
#![tactic(auto)]

ghost use Rattle.std.specs.Prelude.{◌≡◌, ◌+◌, ◌*◌, length};
ghost use Rattle.model.specs.Line.{SESSIONS};
ghost use Rattle.model.specs.Image.{check_number};
ghost use Rattle.model.specs.Judgement.{judge};
ghost use Rattle.model.specs.Loop.{loop_call};
ghost use Rattle.model.specs.Moves.{widened, narrowed};
ghost use Rattle.model.specs.Run.{step, open_by, close_by, show_by, ask_by, short_ask_by, explain_by, returned, answered};
ghost use Rattle.model_stopped.specs.Stopped.{stopped_call};
ghost use Rattle.model_tidy.specs.Tidy.{tidy_call};
ghost use Rattle.grant_table.specs.TableCalls.{table_call};
ghost use Rattle.grant_table_turned.specs.Calls.{turn_call, unturn_call};

pub mod clause_text; // clause_text.rt: the clause text of an ask
pub mod obstacle; // obstacle.rt: what stands in the way of an ask

// Judges an image: 0, or the refusal's number plus 256 times the place of the refused word, by 22 the lowest role on a
// loop, or by 23 the lowest user who may activate more than 16 roles.
#[unsafe(no_mangle)]
pub extern "C" fn nutrameza_check(image: &[u8]) -> u64
    ensures { result ≡ check_number (judge image.now) }
{
    nutrameza::nutrameza_check(image)
}

// Shows the shortest loop of the lowest role on one: its roles from that role down and back to it, a byte each, and
// zeros after them. The extra is their number; 20 where no role is on a loop. An image is judged by its words alone.
#[unsafe(no_mangle)]
pub extern "C" fn nutrameza_loop(image: &[u8], chain: &mut [u8]) -> u64
    ensures { let a = loop_call image.now (length chain.old) in
        (result ≡ returned a) × (chain.new ≡ answered chain.old a) }
{
    nutrameza::nutrameza_loop(image, chain)
}

// Writes the tidy image of the image's policy at the front of the buffer: head, assignments, grants, seniors,
// exclusions, limits, each group ascending by its fields and without repeats, of limits the smallest for a role. The
// extra is the number of words written; 19 for a buffer that is too small for them.
#[unsafe(no_mangle)]
pub extern "C" fn nutrameza_tidy(image: &[u8], out: &mut [u8]) -> u64
    ensures { let w = tidy_call image.now out.old in (result ≡ w.number + 256 * w.extra) × (out.new ≡ w.out) }
{
    nutrameza::nutrameza_tidy(image, out)
}

// Tells whom the image stops: the users whose line of the ledger is not sound under it, user u as bit u of 8 bytes. The
// extra is how many they are.
#[unsafe(no_mangle)]
pub extern "C" fn nutrameza_stopped(image: &[u8], ledger: &[u8], users: &mut [u8]) -> u64
    ensures { let a = stopped_call SESSIONS image.now ledger.now (length users.old) in
        (result ≡ returned a) × (users.new ≡ answered users.old a) }
{
    nutrameza::nutrameza_stopped(image, ledger, users)
}

// Opens the user's lowest closed session, and returns it as the extra.
#[unsafe(no_mangle)]
pub extern "C" fn nutrameza_open(image: &[u8], ledger: &mut [u8], user: u64) -> u64
    ensures { let e = step SESSIONS image.now ledger.old (open_by user) in
        (result ≡ returned e.reply) × (ledger.new ≡ e.ledger) }
{
    nutrameza::nutrameza_open(image, ledger, user)
}

// Closes the user's session.
#[unsafe(no_mangle)]
pub extern "C" fn nutrameza_close(image: &[u8], ledger: &mut [u8], user: u64, session: u64) -> u64
    ensures { let e = step SESSIONS image.now ledger.old (close_by user session) in
        (result ≡ returned e.reply) × (ledger.new ≡ e.ledger) }
{
    nutrameza::nutrameza_close(image, ledger, user, session)
}

// Shows the active roles of the user's session and the permissions that they carry.
#[unsafe(no_mangle)]
pub extern "C" fn nutrameza_show(
    image: &[u8],
    ledger: &[u8],
    user: u64,
    session: u64,
    answer: &mut [u8],
) -> u64
    ensures { let e = step SESSIONS image.now ledger.now (show_by user session (length answer.old)) in
        (result ≡ returned e.reply) × (answer.new ≡ answered answer.old e.reply) }
{
    nutrameza::nutrameza_show(image, ledger, user, session, answer)
}

// Explains through which roles the active ones of the user's session carry the permission: the extra is 64 times the
// lowest that carries it plus the lowest role at or below that one which holds the grant.
#[unsafe(no_mangle)]
pub extern "C" fn nutrameza_explain(
    image: &[u8],
    ledger: &[u8],
    user: u64,
    session: u64,
    permission: u64,
) -> u64
    ensures { result ≡ returned (step SESSIONS image.now ledger.now (explain_by user session permission)).reply }
{
    nutrameza::nutrameza_explain(image, ledger, user, session, permission)
}

// Asks for roles in the user's session: at least the lower permissions, none outside the upper, the best by both
// objectives.
#[unsafe(no_mangle)]
pub extern "C" fn nutrameza_ask(
    image: &[u8],
    ledger: &mut [u8],
    user: u64,
    session: u64,
    lower: &[u8],
    upper: &[u8],
    permission_aim: u64,
    role_aim: u64,
    answer: &mut [u8],
) -> u64
    ensures { let e = step SESSIONS image.now ledger.old
        (ask_by user session lower.now upper.now permission_aim role_aim (length answer.old)) in
        (result ≡ returned e.reply) × (ledger.new ≡ e.ledger) × (answer.new ≡ answered answer.old e.reply) }
{
    nutrameza::nutrameza_ask(
        image,
        ledger,
        user,
        session,
        lower,
        upper,
        permission_aim,
        role_aim,
        answer,
    )
}

// An ask for the fewest permissions, then the fewest roles.
#[unsafe(no_mangle)]
pub extern "C" fn nutrameza_short_ask(
    image: &[u8],
    ledger: &mut [u8],
    user: u64,
    session: u64,
    lower: &[u8],
    upper: &[u8],
    answer: &mut [u8],
) -> u64
    ensures { let e = step SESSIONS image.now ledger.old
        (short_ask_by user session lower.now upper.now (length answer.old)) in
        (result ≡ returned e.reply) × (ledger.new ≡ e.ledger) × (answer.new ≡ answered answer.old e.reply) }
{
    nutrameza::nutrameza_short_ask(image, ledger, user, session, lower, upper, answer)
}

// Carries a ledger of four sessions a user over to one of eight: open bits, histories and each session's bytes stand as
// they were, and the new sessions are closed. 9 is by 80 bytes a user, 19 by 144; the extra of 11 is the user.
#[unsafe(no_mangle)]
pub extern "C" fn nutrameza_widen(image: &[u8], old: &[u8], new: &mut [u8]) -> u64
    ensures { let e = widened image.now old.now new.old in
        (result ≡ returned e.reply) × (new.new ≡ e.ledger) }
{
    nutrameza::nutrameza_widen(image, old, new)
}

// Carries a ledger of eight sessions a user back to one of four. 9 is by 144 bytes a user, 19 by 80; 24 where any of
// the sessions 4 to 7 is open; the extra of 11 and 24 is the user.
#[unsafe(no_mangle)]
pub extern "C" fn nutrameza_narrow(image: &[u8], old: &[u8], new: &mut [u8]) -> u64
    ensures { let e = narrowed image.now old.now new.old in
        (result ≡ returned e.reply) × (new.new ≡ e.ledger) }
{
    nutrameza::nutrameza_narrow(image, old, new)
}

// Fills the buffer with the closed grant table: 32 bytes for each of 64 roles, the permissions that the role carries.
#[unsafe(no_mangle)]
pub extern "C" fn nutrameza_table(image: &[u8], table: &mut [u8]) -> u64
    ensures { let a = table_call image.now (length table.old) in
        (result ≡ returned a) × (table.new ≡ answered table.old a) }
{
    nutrameza::nutrameza_table(image, table)
}

// Turns a table of 64 rows of 32 bytes into one of 256 rows of 8: bit p of row r goes to bit r of row p.
#[unsafe(no_mangle)]
pub extern "C" fn nutrameza_turn(source: &[u8], target: &mut [u8]) -> u64
    ensures { let a = turn_call source.now (length target.old) in
        (result ≡ returned a) × (target.new ≡ answered target.old a) }
{
    nutrameza::nutrameza_turn(source, target)
}

// Turns a table of 256 rows of 8 bytes back into one of 64 rows of 32: bit r of row p goes to bit p of row r.
#[unsafe(no_mangle)]
pub extern "C" fn nutrameza_unturn(source: &[u8], target: &mut [u8]) -> u64
    ensures { let a = unturn_call source.now (length target.old) in
        (result ≡ returned a) × (target.new ≡ answered target.old a) }
{
    nutrameza::nutrameza_unturn(source, target)
}
