// The limits of document 01 as code has them, each named once; specs/Limits.antt has them as definitions.

#![tactic(auto)]

// A whole number of an assignment.
pub type Whole = i32;

pub const LARGEST_WHOLE: usize = 2_147_483_647;

// A number of a condition as it is read: a tag, a child count, a name, or a bound as written.
pub type Numeral = u32;

pub const MOST_ENDS: u32 = 24;

pub const DEEPEST: u32 = MOST_ENDS - 1;

pub const LAST_BOOLEAN: u32 = 31;

pub const BOOLEANS: usize = LAST_BOOLEAN as usize + 1;

pub const LAST_NUMBER: u32 = 15;

// So many numbers an assignment lists: all but number 0.
pub const ASSIGNED: usize = LAST_NUMBER as usize;

pub const LARGEST_BOUND: u32 = 1_000_000;

pub const FARTHEST: u32 = LAST_NUMBER * (LARGEST_BOUND + 1);

pub const GROUPS: u32 = 3;

pub const GROUP_SIZE: Numeral = 128;

pub const LAST_TAG: Numeral = 7;

pub const LONGEST_TREE: usize = 2 * DEEPEST as usize + MOST_ENDS as usize * (3 + GROUPS as usize);

// Room in memory, counted in nodes.
pub const TREE_ROOM: usize = MOST_ENDS as usize + DEEPEST as usize;

pub const QUESTION_ROOM: usize = TREE_ROOM + 1;
