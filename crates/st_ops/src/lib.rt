//! Lists of operations as bytes: the payloads of a queue's frames.
#![tactic(auto)]

mod laws;
mod op;
mod reading;
mod stage;
#[cfg(test)]
mod tests;
mod writing;

pub use laws::{form_of_parts, one_spelling};
pub use op::{Op, OpsRefusal};
pub use reading::decode;
pub use writing::encode;
