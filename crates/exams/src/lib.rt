// One file for each exam: creates it, opens it for its own exam number, finds a slot, fetches a
// slot's words, appends a slot, or many, replaces a slot's words, salvages a file without its end. This
// crate has no function: the calls are those of the crates below, named together, and what is promised
// of them is in proofs/.
#![tactic(auto)]

pub use answers::Refusal;
pub use exam_appending::append;
pub use exam_fetching::fetch;
pub use exam_filling::append_all;
pub use exam_opening::{find, locate, open};
pub use exam_replacing::replace;
pub use exam_rules::{BlockPlace, Progress, Record, SalvagedFile, Trailer};
pub use exam_salvaging::salvage;
pub use exam_writing::create;
