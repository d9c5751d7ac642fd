// The words of an image, by 01's table of kinds: the number of each kind, and the unit of each field, which is what its
// lowest bit counts. A word is the sum of its fields, each times its unit; a field is the word by its unit, less what
// stands above it.

// ---- kinds

pub const HEAD: u32 = 1;

pub const ASSIGNMENT: u32 = 2;

pub const GRANT: u32 = 3;

pub const SENIOR: u32 = 4;

pub const EXCLUSION: u32 = 5;

pub const MEMBER: u32 = 6;

pub const LIMIT: u32 = 7;

pub const END: u32 = 15;

// ---- units

pub const KIND_UNIT: u32 = 1 << 28;
// The numbers of users, roles and permissions in a head.
pub const USERS_UNIT: u32 = 1 << 21;

pub const ROLES_UNIT: u32 = 1 << 14;

pub const PERMISSIONS_UNIT: u32 = 1 << 5;
// The first number of an assignment, a grant, a senior word, a member or a limit: a user or a role.
pub const FIRST_UNIT: u32 = 1 << 22;
// The second number of an assignment or a senior word: a role.
pub const SECOND_UNIT: u32 = 1 << 16;
// The permission of a grant.
pub const PERMISSION_UNIT: u32 = 1 << 14;
// Which exclusion, its n and its m.
pub const WHICH_UNIT: u32 = 1 << 26;

pub const N_UNIT: u32 = 1 << 19;

pub const M_UNIT: u32 = 1 << 12;
// The t of a limit.
pub const T_UNIT: u32 = 1 << 13;

// ---- a word of a kind, with zero fields

pub const HEAD_WORD: u32 = HEAD * KIND_UNIT;

pub const GRANT_WORD: u32 = GRANT * KIND_UNIT;

pub const EXCLUSION_WORD: u32 = EXCLUSION * KIND_UNIT;

pub const MEMBER_WORD: u32 = MEMBER * KIND_UNIT;

pub const LIMIT_WORD: u32 = LIMIT * KIND_UNIT;

pub const END_WORD: u32 = END * KIND_UNIT;

// ---- an image's length in bytes: a multiple of a word's, from the shortest to the longest

pub const WORD_BYTES: usize = 4;

pub const LEAST_BYTES: usize = 8;

pub const MOST_BYTES: usize = 16384;
