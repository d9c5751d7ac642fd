// The usual words, where no member is due: grants, assignments and senior words in range, with no spare bit, known by
// few tests.
ghost use Rattle.std.specs.Prelude.{◌≡◌, ℕ, ◌+◌, ◌-◌, ◌*◌, ◌/◌, ◌%◌, ◌^◌, ◌<◌, ◌≤◌, true, false, List, length, IfSome, MatchOption};
ghost use Rattle.model.specs.Image.{word_at, decode as decode_of};
ghost use Rattle.model.specs.declared.Entry.{Entry as EntryOf};
ghost use Rattle.image_usual.specs.Usual.{Grants, Quick, Passed, Led, FilledBy, Ungranting, Gathers, Opens, Joins, Joined};

use crate::taking::{TakesGrants, UsualGrant};
use image_faults::fault::senior_fault;
use image_words::words::{ImageWords, Run};
use model::{Head, Permission, Role, Scan, layout};

// A kind above a number of six bits, as in a word turned until that number is lowest.
const ASSIGNMENT_TURNED: u32 = 64 * layout::ASSIGNMENT;

const GRANT_TURNED: u32 = 64 * layout::GRANT;

const MEMBER_TURNED: u32 = 64 * layout::MEMBER;

// A word turned by so many bits: these lowest bits stand at its top, and the others are moved down.
fn turned(w: u32, by: u32) -> u32
    requires { (0 < by) × (by < 32) }
    ensures { result ≡ w / 2 ^ by + w % 2 ^ by * 2 ^ (32 - by) }
{
    w.rotate_right(by)
}

// What a word grants, where it is a grant in range with no spare bit. Turned by 14 bits, a word has its permission in
// the low byte and its spare bits at the top, so that one comparison says that it is a grant, has no spare bit and
// names a role in range.
pub fn grants(h: Head, w: u32) -> Option<UsualGrant>
    requires { h.roles ≤ 64 }
    ensures { IfSome result (λ g. Grants h w g) }
{
    let x = turned(w, 14);
    let r = (x / 256).wrapping_sub(GRANT_TURNED);
    if h.roles as u32 <= r {
        return None;
    }
    let p = x % 256;
    if h.permissions as u32 <= p {
        return None;
    }
    Some(UsualGrant {
        role: Role(r as u8),
        permission: Permission(p as u8),
    })
}

// Where the assignments to one user end, and the user's roles with theirs.
#[derive(Clone, Copy)]
struct Gathered {
    run: Run,
    row: u64,
}

// The assignments to user u from where `at` is, in range and with no spare bit; `own` has the user's roles before.
// Turned by 16 bits, a word has its spare bits above its kind, so that one comparison says that it assigns to u and has
// no spare bit. The roles are gathered aside, and counted by the caller: where they are 16 at most, no word before had
// one too many.
fn gather(image: &ImageWords, at: Run, roles: u8, u: u32, own: u64) -> Gathered
    requires { (at.place < image.now.count) × (u < 64) }
    ensures { Gathers image.now.bytes.now image.now.count at.place roles u at.sum own result.run.place result.run.sum
        result.row }
{
    let key = u + ASSIGNMENT_TURNED;
    let mut all = Gathered { run: at, row: own };
    // Words are read at their places: there is no slice of words to walk.
    for place in at.place..image.last() {
        let w = image.word(place);
        let x = turned(w, 16);
        if x / 64 != key {
            return all;
        }
        let r = (x % 64) as u8;
        if roles <= r {
            return all;
        }
        all = Gathered {
            run: all.run.past(w),
            row: sets::with(all.row, Role(r)),
        };
    }
    all
}

// The assignments from where `at` is to the user that the word names, taken in where there is one and they leave the
// user 16 roles at most. All bits of the turned word go into the user's number, so that the word is read as a whole;
// one of another kind, or with a spare bit, has no user in range.
fn spell(image: &ImageWords, at: Run, h: Head, w: u32, assigned: &mut [u64; 64]) -> Option<Run>
    requires { at.place < image.now.count }
    ensures { MatchOption result (assigned.new ≡ assigned.old) (λ run. (at.place < run.place) × ((juniors : List ℕ)
        → Led image.now.bytes.now h image.now.count at.place at.sum assigned.old juniors run.place run.sum assigned.new
        juniors)) }
{
    let u = (turned(w, 16) / 64).wrapping_sub(ASSIGNMENT_TURNED);
    if h.users as u32 <= u {
        return None;
    }
    if 64 <= u {
        return None;
    }
    let who = u as usize;
    let all = gather(image, at, h.roles, u, assigned[who]);
    if all.run.place == at.place {
        return None;
    }
    if 16 < sets::size(all.row) {
        return None;
    }
    assigned[who] = all.row;
    Some(all.run)
}

// A senior word without fault and with no spare bit is taken in; any other word changes nothing.
fn orders(h: Head, juniors: &mut [u64; 64], w: u32) -> bool
    ensures { (result ≡ true → ((assigned : List ℕ) → Quick h w assigned juniors.old assigned juniors.new)
        × ((step : List ℕ → EntryOf → List ℕ) → Ungranting step → (granted : List ℕ)
        → step granted (decode_of w).entry ≡ granted))
        × (result ≡ false → juniors.new ≡ juniors.old) }
{
    let x = turned(w, 16);
    if x / 4096 != layout::SENIOR {
        return false;
    }
    let a = Role((x / 64 % 64) as u8);
    let b = Role((x % 64) as u8);
    let Ok(()) = senior_fault(h, a, b) else {
        return false;
    };
    let who = a.0 as usize;
    let row = sets::with(juniors[who], b);
    juniors[who] = row;
    true
}

// A senior word, the word where `at` is, or the assignments to one user from there on, where there is one of these.
pub fn pairs(
    image: &ImageWords,
    at: Run,
    h: Head,
    w: u32,
    assigned: &mut [u64; 64],
    juniors: &mut [u64; 64],
) -> Option<Run>
    requires { (at.place + 1 < image.now.count) × (w ≡ word_at image.now.bytes.now at.place) }
    ensures { MatchOption result ((assigned.new ≡ assigned.old) × (juniors.new ≡ juniors.old)) (λ run. (at.place < run.place)
        × Led image.now.bytes.now h image.now.count at.place at.sum assigned.old juniors.old run.place run.sum assigned.new
        juniors.new) }
{
    if orders(h, juniors, w) {
        return Some(at.past(w));
    }
    spell(image, at, h, w, assigned)
}

// The usual words from where `at` is, where there is one: a grant, a senior word, or the assignments to one user.
fn ahead<G: TakesGrants>(
    image: &ImageWords,
    at: Run,
    h: Head,
    assigned: &mut [u64; 64],
    granted: &mut G,
    juniors: &mut [u64; 64],
) -> Option<Run>
    requires { (at.place + 1 < image.now.count) × (h.roles ≤ 64) }
    ensures { MatchOption result ((assigned.new ≡ assigned.old) × (G.rows granted.new ≡ G.rows granted.old)
        × (juniors.new ≡ juniors.old)) (λ run. (at.place < run.place)
        × FilledBy G.step image.now.bytes.now h image.now.count 0 at.place at.sum assigned.old (G.rows granted.old) juniors.old
        run.place run.sum assigned.new (G.rows granted.new) juniors.new) }
{
    let w = image.word(at.place);
    match grants(h, w) {
        Some(grant) => {
            granted.take(grant);
            Some(at.past(w))
        }
        None => pairs(image, at, h, w, assigned, juniors),
    }
}

// The run of usual words from where `at` is, where so many members are due. The last word of the image is in no run.
// The tables are lent one by one: a check has two of them, as arrays of its caller, and a policy's tables have all
// three among others, so that a struct of them would be three `&mut` fields, made by each caller for this call alone.
pub fn pass<G: TakesGrants>(
    image: &ImageWords,
    at: Run,
    h: Head,
    due: u32,
    assigned: &mut [u64; 64],
    granted: &mut G,
    juniors: &mut [u64; 64],
) -> Run
    requires { at.place ≤ image.now.count }
    ensures { FilledBy G.step image.now.bytes.now h image.now.count due at.place at.sum assigned.old (G.rows granted.old)
        juniors.old result.place result.sum assigned.new (G.rows granted.new) juniors.new }
{
    if due != 0 {
        return at;
    }
    if 64 < h.roles {
        return at;
    }
    let mut here = at;
    // A turn takes one word or a run of them, so the places are not counted one by one.
    while here.place < image.last() {
        let Some(next) = ahead(image, here, h, assigned, granted, juniors) else {
            return here;
        };
        here = next;
    }
    here
}

// What an exclusion word in range and with no spare bit, where no member is due, leaves to judge the next word by.
// Turned by 12 bits, a word has its spare bits above its kind, so that one comparison says that it is an exclusion word
// and has no spare bit.
pub fn opens(roles: u8, t: Scan, w: u32) -> Option<Scan>
    ensures { IfSome result (λ s. Opens roles t w s) }
{
    if t.due != 0 {
        return None;
    }
    if turned(w, 12) / 65536 != layout::EXCLUSION {
        return None;
    }
    let m = w / layout::M_UNIT % 128;
    let n = w / layout::N_UNIT % 128;
    if (roles as u32) < m {
        return None;
    }
    if m < n {
        return None;
    }
    if n < 2 {
        return None;
    }
    if 32 <= t.exclusions {
        return None;
    }
    Some(Scan {
        exclusions: t.exclusions + 1,
        due: m,
        members: 0,
    })
}

// What a member that is due, in range, with no spare bit and not named before leaves to judge the next word by. Turned
// by 22 bits, a word has its spare bits above its kind, so that one comparison says that it is a member, has no spare
// bit and names a role in range.
fn member(roles: u8, t: Scan, w: u32) -> Option<Scan>
    requires { roles ≤ 64 }
    ensures { IfSome result (λ s. Joins roles t w s) }
{
    if t.due == 0 {
        return None;
    }
    let x = turned(w, 22);
    let r = x.wrapping_sub(MEMBER_TURNED);
    if roles as u32 <= r {
        return None;
    }
    let who = Role(r as u8);
    if sets::has(t.members, who) {
        return None;
    }
    Some(Scan {
        exclusions: t.exclusions,
        due: t.due - 1,
        members: sets::with(t.members, who),
    })
}

// Where the members of an exclusion end, and what the next word is judged by.
#[derive(Clone, Copy)]
pub struct Behind {
    pub run: Run,
    pub scan: Scan,
}

// The members that are due from where `at` is. The last word of the image is not among them.
pub fn members(image: &ImageWords, at: Run, roles: u8, t: Scan) -> Behind
    ensures { Joined image.now.bytes.now roles image.now.count at.place at.sum t result.run.place result.run.sum
        result.scan }
{
    let mut behind = Behind { run: at, scan: t };
    if 64 < roles {
        return behind;
    }
    // Words are read at their places: there is no slice of words to walk.
    for place in at.place..image.last() {
        let w = image.word(place);
        let Some(scan) = member(roles, behind.scan, w) else {
            return behind;
        };
        behind = Behind {
            run: behind.run.past(w),
            scan,
        };
    }
    behind
}
