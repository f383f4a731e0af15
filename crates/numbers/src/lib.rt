// Numbers as the packed record and the text write them, one module for each way of writing.

#![tactic(auto)]

pub mod big_endian;
pub mod decimal;
pub mod signed;
