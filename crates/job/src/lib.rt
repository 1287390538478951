// What the desk program prints for a job.
#![tactic(auto)]

pub(crate) mod assemble_job; // a job that assembles a text
pub(crate) mod carry_job; // a job that carries a body
pub(crate) mod hex; // bytes in hex, read
pub(crate) mod list_job; // a job that lists a body
pub(crate) mod printed; // a refusal, a body and an answer as they are printed
pub(crate) mod reader; // the parts of a job in order: which it is, inputs, body, text
pub mod run; // a job's bytes in, the printed bytes out
pub(crate) mod table; // the strings, read
