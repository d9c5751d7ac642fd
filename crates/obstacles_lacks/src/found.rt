// What stands in the way of an ask, as a value.
use model::{Exclusion, Permission};

// A permission of the lower bound that no role of some gives, and the roles that carry it.
#[derive(Clone, Copy)]
pub struct Lack {
    pub permission: Permission,
    pub roles: u64,
}

// An exclusion with which no role set is left, and its members that stay counted.
#[derive(Clone, Copy)]
pub struct Blocking {
    pub exclusion: Exclusion,
    pub counted: u64,
}

// What stands in the way: the user's roles lack a permission, those of them that fit the upper bound do, those that no
// limit bars either do, or an exclusion leaves no role set.
#[derive(Clone, Copy)]
pub enum Obstacle {
    Own(Lack),
    Upper(Lack),
    Limits(Lack),
    Exclusion(Blocking),
}
