// Packs 64-bit words into blocks, checks blocks and unpacks them.
#![tactic(auto)]

mod checks;
mod packing;
mod unpacking;

pub use answers::Refusal;
pub use block_checking::check;
pub use packing::pack;
pub use unpacking::unpack;
