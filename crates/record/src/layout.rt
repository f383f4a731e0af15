// The layout of a record: where each field starts, right after the one before. The list is that of `widths` in the
// definitions: each reader and writer of fields.rt promises its field by number, and so holds at no other offset.

// The widths in bytes of the number of records in a list, of a number, of an offset or a size in the text, and of a step
// count.
pub const LIST_BYTES: usize = 3;

pub const NUMBER_BYTES: usize = 4;

pub const PLACE_BYTES: usize = 3;

const SPAN_BYTES: usize = PLACE_BYTES + PLACE_BYTES;

pub const COUNT_BYTES: usize = 5;

pub const SMALL: usize = 0;

pub const FIRST: usize = SMALL + 1;

pub const SECOND: usize = FIRST + LIST_BYTES;

pub const NUMBER: usize = SECOND + LIST_BYTES;

pub const OTHER: usize = NUMBER + NUMBER_BYTES;

pub const FAMILY: usize = OTHER + NUMBER_BYTES;

pub const CONSTRAINTS: usize = FAMILY + SPAN_BYTES;

pub const LAYER_SET: usize = CONSTRAINTS + SPAN_BYTES;

pub const COUNT: usize = LAYER_SET + SPAN_BYTES;

// The size of a record.
pub const RECORD: usize = COUNT + COUNT_BYTES;
