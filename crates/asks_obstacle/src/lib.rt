// What stands in the way of an ask under an accepted policy: refused as a short ask is up to 17, then for a buffer of
// another length, else told.
#![tactic(auto)]

ghost use Rattle.std.specs.Prelude.{◌≡◌, List, ◌++◌, ℕ, ◌*◌, ◌+◌, ◌≤◌, ◌<◌, length};
ghost use Rattle.model.specs.Bytes.{bytes_of};
ghost use Rattle.model.specs.Policy.{Policy, meaning};
ghost use Rattle.model.specs.Limits.{Others};
ghost use Rattle.model.specs.Line.{SESSIONS};
ghost use Rattle.model.specs.Obstacle.{obstacle_of};
ghost use Rattle.model.specs.Run.{step_on, obstacle_by, line_of};
ghost use Rattle.reasons.specs.Numbers.{returned_by};
ghost use Rattle.sets.specs.Words.{value, values};
ghost use Rattle.exclusion_rows.specs.Table.{exclusions_of};
ghost use Rattle.policy_tables.specs.Held.{Holds};
ghost use Rattle.sessions.specs.Calls.{Shows};
ghost use Rattle.asks_request.specs.Refusals.{BoundedBy};
ghost use Rattle.asks.specs.Asks.{Searched};
ghost use Rattle.obstacles_lacks.specs.Founds.{found_of};
ghost use Rattle.asks_obstacle.specs.Telling.{Tells, TellsOf};

use asks_request::request::{Request, Wanted, limited_refusal};
use exclusion_rows::number_of;
use ledger::bytes::line_of;
use limits_left::roles_left;
use model::Line;
use obstacles::{Roles, obstacle};
use obstacles_lacks::found::{Lack, Obstacle};
use policy_tables::PolicyTables;
use query_reduced::line_session::LineSession;
use reasons::{Reason, Refusal};
use sessions::first::roles_of;
use sessions::given::UserSession;

// Both role sets fill the buffer.
fn fill(roles: &mut [u8], first: u64, second: u64)
    requires { length roles.old ≡ 16 }
    ensures { roles.new ≡ bytes_of 8 first ++ bytes_of 8 second }
{
    let pair = [first, second];
    octets::put_numbers(roles, 0, &pair);
}

// What a host gets of an obstacle: its kind plus 8 times what it is about, and two role sets.
#[derive(Clone, Copy)]
struct Answer {
    extra: u64,
    first: u64,
    second: u64,
}

// A lack, by the number of its kind.
fn lack_answer(kind: u64, lack: Lack) -> Answer
    requires { kind ≤ 4 }
    ensures { (result.extra ≡ kind + 8 * lack.permission.0) × (result.extra ≤ 16384) × (result.first ≡ lack.roles) × (result.second ≡ 0) }
{
    Answer {
        extra: kind + 8 * (lack.permission.0 as u64),
        first: lack.roles,
        second: 0,
    }
}

// The answer for an obstacle.
fn answer_of(found: Obstacle) -> Answer
    ensures { TellsOf found result.extra result.first result.second }
{
    match found {
        Obstacle::Own(lack) => lack_answer(1, lack),
        Obstacle::Upper(lack) => lack_answer(2, lack),
        Obstacle::Limits(lack) => lack_answer(3, lack),
        Obstacle::Exclusion(blocking) => {
            let exclusion = blocking.exclusion;
            let kind = number_of(exclusion.kind);
            Answer {
                extra: 4 + 8 * ((kind as u64) + 4 * (exclusion.n as u64)),
                first: blocking.counted,
                second: exclusion.members,
            }
        }
    }
}

// An obstacle is written, both its role sets, and its number returned; 20 where nothing was found.
fn told(found: Option<Obstacle>, roles: &mut [u8]) -> Result<u64, Refusal>
    requires { length roles.old ≡ 16 }
    ensures { Tells (found_of found) (returned_by result) roles.old roles.new }
{
    match found {
        None => Err(Refusal::from(Reason::NoRoles)),
        Some(one) => {
            let answer = answer_of(one);
            fill(roles, answer.first, answer.second);
            Ok(answer.extra)
        }
    }
}

// What stands in the way of an ask for a session of the user's line, which meets every exclusion.
fn found_for(
    l: Line,
    tables: &PolicyTables,
    roles: Roles,
    who: UserSession,
    wanted: Wanted,
) -> Option<Obstacle>
    requires { who.session < SESSIONS }
    ensures { (p : Policy) (x : Others) (ledger : List ℕ)
        → Searched p who.user x ledger who.session (values tables.now.granted) tables.now.below roles.free
        (exclusions_of tables.now.exclusions)
        → (meaning p who.user).authorized ≡ roles.own → l ≡ line_of SESSIONS ledger who.user
        → found_of result ≡ obstacle_of (meaning p who.user) x l who.session (value wanted.bounds.lower) (value wanted.bounds.upper) }
{
    let at = LineSession {
        line: l,
        session: who.session as usize,
    };
    obstacle(&tables.grants(), &tables.exclusions, at, roles, wanted)
}

// What stands in the way of an ask, written to the buffer and returned. Limits bar roles as in an ask.
pub fn ask_obstacle(
    ledger: &[u8],
    tables: &PolicyTables,
    request: Request,
    roles: &mut [u8],
) -> Result<u64, Refusal>
    requires { (request.first ≡ 0) × (request.second ≡ 0) }
    ensures { (p : Policy) (lower upper : List ℕ) → Holds tables.now p → BoundedBy request.bounds lower upper
        → Shows (step_on SESSIONS p ledger.now
        (obstacle_by request.who.user request.who.session lower upper (length roles.old)))
        (returned_by result) roles.old roles.new }
{
    let wanted = limited_refusal(ledger, tables, request, 40)?;
    if roles.len() != 16 {
        return Err(Refusal::from(Reason::Room));
    }
    let who = request.who;
    let free = roles_left(ledger, tables, who);
    let own = roles_of(&tables.authorized, who.user as usize);
    let mine = Roles { own, free };
    let l = line_of(ledger, who.user as usize);
    told(found_for(l, tables, mine, who, wanted), roles)
}
