// The rows of the two lent tables: how many words a row has, and what stands in which.
//
// An entry's value takes the last four words of its row: a scalar and three zeros; a string's
// place, its length and two zeros; or an array's item type, count, kept count and the place of its
// first item. specs/Columns.antt has the same names for definitions.

// An entry's row.
#![tactic(auto)]

pub type EntryRow = [u64; ENTRY_WORDS];

pub const ENTRY_WORDS: usize = 7;

pub const KEY_PLACE: usize = 0;

pub const KEY_LENGTH: usize = 1;

pub const VALUE_TYPE: usize = 2;

pub const SCALAR: usize = 3;

pub const STRING_PLACE: usize = 3;

pub const STRING_LENGTH: usize = 4;

pub const ITEM_TYPE: usize = 3;

pub const COUNT: usize = 4;

pub const KEPT: usize = 5;

pub const FIRST_ITEM: usize = 6;

// A tensor's row.
pub type TensorRow = [u64; TENSOR_WORDS];

pub const TENSOR_WORDS: usize = 10;

pub const NAME_PLACE: usize = 0;

pub const NAME_LENGTH: usize = 1;

pub const KIND: usize = 2;

pub const DIMENSIONS: usize = 3;

pub const FIRST_LENGTH: usize = 4;

pub const SECOND_LENGTH: usize = 5;

pub const THIRD_LENGTH: usize = 6;

pub const FOURTH_LENGTH: usize = 7;

pub const OFFSET: usize = 8;

pub const SIZE: usize = 9;
