// The clause text of an ask, for a solver outside.
ghost use Rattle.std.specs.Prelude.{◌≡◌, length};
ghost use Rattle.model.specs.Line.{SESSIONS};
ghost use Rattle.model.specs.Run.{step, clauses_by, returned, written};

use sessions::given::UserSession;

// Writes an ask as weighted clauses (docs/CLAUSES.md) to the front of the buffer, and returns the text's length as the
// extra. No session changes; 19 where the text is longer than the buffer, 20 never.
pub fn nutrameza_clauses(
    image: &[u8],
    ledger: &[u8],
    user: u64,
    session: u64,
    lower: &[u8],
    upper: &[u8],
    permission_aim: u64,
    role_aim: u64,
    out: &mut [u8],
) -> u64
    ensures { let e = step SESSIONS image.now ledger.now
        (clauses_by user session lower.now upper.now permission_aim role_aim (length out.old)) in
        (result ≡ returned e.reply) × (out.new ≡ written out.old e.reply) }
{
    let who = UserSession { user, session };
    calls_session::ask_clauses(
        image,
        ledger,
        who,
        lower,
        upper,
        permission_aim,
        role_aim,
        out,
    )
}
