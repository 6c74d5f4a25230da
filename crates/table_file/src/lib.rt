#![tactic(auto)]
// The reader of table files: opening tells the first fault or the shape; the opened table borrows the
// file, answers as a project, and hands out its sections as parts of the file.
pub mod examples;
mod fields;
mod head;
pub mod held;
pub mod open;
mod records;
pub mod section;
pub mod shape;
pub mod table;
