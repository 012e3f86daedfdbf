// What a deletion takes: the record and every detail below it, marked; and where entries back up to.
// Table and file stay side by side and no struct: the specification lends a table as a plain `&[u16]`, apart from the file.
#![tactic(auto)]

pub mod entries;
pub mod marks;
