// What is written of a text: its messages in their regular spelling, or a table of them.
pub(crate) mod rewriting;
pub(crate) mod row;
pub(crate) mod table;
