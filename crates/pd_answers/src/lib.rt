//! What can be asked of the tools, and what they answer: requests and the words for them in code, and in definitions what the words of a
//! command line ask, the printed lines, and the answer to a request.
#![tactic(auto)]

mod request;
mod tool;

pub use request::{Asked, CacheRoots, GivenSuper, NamedRoots, Request};
pub use tool::{Need, Tool, ToolWords, Value, Word};
