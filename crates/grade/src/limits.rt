// The sizes and limits of a rule book: specs/Limits.antt has the same names.
pub const KEY_LIMIT: usize = 20;

pub const RULE_LIMIT: usize = 256;

pub const RULE_SIZE: usize = 10;

pub const SEGMENT_COUNT: u8 = 10;

pub const FIELD_LIMIT: u8 = 99;

pub const COMPONENT_LIMIT: u8 = 20;

pub const SET_LIMIT: u8 = 64;

// The same, as the length of a list of places.
pub const SET_PLACES: usize = 64;

// A place for each name at its number, the end's at 0.
pub const NAME_PLACES: usize = 11;

// Room for the first rule of each of these, and for each rule's next one.
pub const LINKS: usize = 267;

pub const CODE_COUNT_LIMIT: usize = 1024;

pub const CODE_LIMIT: usize = 20;

pub const BOOK_LIMIT: usize = 65536;

pub const HEAD_SIZE: usize = 5;

pub const BOOK_VERSION: usize = 1;

pub const SECTION_LIMIT: usize = 64;

// Room for the starts of a segment's parts up to the last field that a rule may name, and for their end.
pub const FIELD_PLACES: usize = 101;
