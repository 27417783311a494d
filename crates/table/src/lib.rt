// Conversion tables: the text, the rules that every table keeps, the lent memory that holds a table, look-up from
// either side.
#![tactic(auto)]

pub mod codes;
pub mod header;
pub mod lent;
pub mod load;
pub mod lookup;
pub mod mapping;
pub mod row;
pub mod states;
pub mod store;
pub mod text;
pub mod valid;
pub mod value;
