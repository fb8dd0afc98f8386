// The token reader and the gate records behind plain parameters: each function here makes the reader, or lends the records, and calls the library.
#![tactic(auto)]

pub mod reading;
pub mod records;
