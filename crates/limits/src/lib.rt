// Document 01's limits, as the code uses them; specs/Limits.antt has the same for the definitions.
#![tactic(auto)]

// 3: "line over 4,096 bytes, line end (LF or CR LF) not counted, read or to be listed".
pub const LINE_LIMIT: usize = 4096;

// 18: "job or body over 65,536 bytes".
pub const JOB_LIMIT: usize = 65536;

pub const BODY_LIMIT: usize = 65536;

// 18: "text or listing over 1,048,576".
pub const TEXT_LIMIT: usize = 1048576;

pub const LISTING_LIMIT: usize = 1048576;

// 18: "more than 65,536 strings or 1,048,576 string bytes".
pub const STRING_LIMIT: usize = 65536;

pub const STRING_BYTES_LIMIT: usize = 1048576;

// "`strings=` above 4,096 .. is 1".
pub const JOB_STRING_LIMIT: usize = 4096;

// "The program lends 65,536 output bytes and 4,096 label entries".
pub const JOB_OUTPUT: usize = 65536;

pub const JOB_LABELS: usize = 4096;
