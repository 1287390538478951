// Encoding: records into the bytes of a body (encode.rs).
#![tactic(auto)]

pub mod canonical; // records as decoding makes them, written without a branch by operand
pub mod encode; // all records, and the operation
pub mod record; // one record into bytes
pub mod record_operands; // a record's operands as bytes
pub mod record_shape; // whether a record's shape is good, 15
