//! What is left of a thin pool whose superblock is lost and whose trees are damaged: what a salvage keeps below each block, and
//! the states to choose from (`thin_repair`).
#![tactic(auto)]

mod damaged;
mod given;
mod kept;
mod known;
mod listing;
mod loose;
mod marks;
mod remains;
mod roots;
mod settled;
mod table;
mod top;

pub use damaged::find_damaged;
pub use kept::Kept;
pub use remains::Remains;
pub use top::{KeptTop, below_top};
