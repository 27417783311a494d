// One scalar value and its bytes in a Unicode encoding scheme.
#![tactic(auto)]

pub mod scheme;
pub mod utf32;
pub mod utf8;
