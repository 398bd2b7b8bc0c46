// One finding: what the ACK's ERR segment says.

// The name is 1 to 10, or 0 where the end of the message breaks the order; ordinal counts among the segments of that name. An order finding has
// no field, no repetition and no rule: these are 0. Component 0 is the whole repetition. The severity is its letter. Other languages lend tables of
// these records: sixteen bytes each, none unused.
#[repr(C)]
#[derive(Clone, Copy)]
pub struct Finding {
    pub ordinal: u32,
    pub repetition: u32,
    pub rule: u16,
    pub code: u16,
    pub name: u8,
    pub field: u8,
    pub component: u8,
    pub severity: u8,
}

// What a place for a record holds before one is set.
pub const BLANK: Finding = Finding {
    ordinal: 0,
    repetition: 0,
    rule: 0,
    code: 0,
    name: 0,
    field: 0,
    component: 0,
    severity: 0,
};
