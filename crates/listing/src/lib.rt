// The text that lists an exam file: its exam, its slots, how many words and bytes each has.
#![tactic(auto)]

mod checking;
mod text;

pub use text::list;
