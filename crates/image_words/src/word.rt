// A word decoded: the head's numbers, or what a word behind the head says, in the enum of entries.
ghost use Rattle.std.specs.Prelude.{◌≡◌, ◌%◌, ◌^◌, true, false, MatchOption};
ghost use Rattle.model.specs.Image.{field, kind_of, says, decode as decode_of, head_of as head_by_word, head_right};
ghost use Rattle.image_words.specs.Bounds.{Small};

use model::{Entry, Exclusion, Head, Permission, Role, User, Word, layout};

// An exclusion word: its kind, its n, how many member words follow, and its spare bits.
fn exclusion_word(w: u32) -> Word
    ensures { (result ≡ says (Entry.Exclude (record { kind = kind_of (field w 26 2); n = field w 19 7; members = 0 }) (field w 12 7)) (w % 2 ^ 12))
        × Small result.entry }
{
    let kind = exclusion_rows::kind_of((w / layout::WHICH_UNIT % 4) as u8);
    let x = Exclusion {
        kind,
        n: (w / layout::N_UNIT % 128) as u8,
        members: 0,
    };
    Word {
        entry: Entry::Exclude(x, (w / layout::M_UNIT % 128) as u8),
        spare: w % layout::M_UNIT,
    }
}

// A word behind the head: what it says, and its spare bits.
// A From of Word or of Head may stand in their own crate alone, the model's, so these are functions.
pub fn decode(w: u32) -> Word
    ensures { (result ≡ decode_of w) × Small result.entry }
{
    let first = (w / layout::FIRST_UNIT % 64) as u8;
    let second = (w / layout::SECOND_UNIT % 64) as u8;
    match w / layout::KIND_UNIT % 16 {
        layout::ASSIGNMENT => Word {
            entry: Entry::Assignment(User(first), Role(second)),
            spare: w % layout::SECOND_UNIT,
        },
        layout::GRANT => Word {
            entry: Entry::Grant(
                Role(first),
                Permission((w / layout::PERMISSION_UNIT % 256) as u8),
            ),
            spare: w % layout::PERMISSION_UNIT,
        },
        layout::SENIOR => Word {
            entry: Entry::Senior(Role(first), Role(second)),
            spare: w % layout::SECOND_UNIT,
        },
        layout::EXCLUSION => exclusion_word(w),
        layout::MEMBER => Word {
            entry: Entry::Member(Role(first)),
            spare: w % layout::FIRST_UNIT,
        },
        layout::LIMIT => Word {
            entry: Entry::Limit(Role(first), (w / layout::T_UNIT % 512) as u16),
            spare: w % layout::T_UNIT,
        },
        layout::END => Word {
            entry: Entry::End,
            spare: 0,
        },
        _ => Word {
            entry: Entry::Unknown,
            spare: 0,
        },
    }
}

// The head's numbers, whether they are in their ranges or not.
pub fn head_of(w: u32) -> Head
    ensures { result ≡ head_by_word w }
{
    Head {
        users: (w / layout::USERS_UNIT % 128) as u8,
        roles: (w / layout::ROLES_UNIT % 128) as u8,
        permissions: (w / layout::PERMISSIONS_UNIT % 512) as u16,
    }
}

// The numbers of a head, where they are in their ranges and it has no spare bits.
pub fn right_head(w: u32) -> Option<Head>
    ensures { MatchOption result (head_right w ≡ false) (λ h. (head_right w ≡ true) × (h ≡ head_by_word w)) }
{
    let h = head_of(w);
    let right = (w / layout::KIND_UNIT % 16 == layout::HEAD)
        & ((1 <= h.users) & (h.users <= 64))
        & ((1 <= h.roles) & (h.roles <= 64))
        & ((1 <= h.permissions) & (h.permissions <= 256))
        & (w % layout::PERMISSIONS_UNIT == 0);
    right.then_some(h)
}
