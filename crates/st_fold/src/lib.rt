//! The plain side of a storage server: the log and what folding it gives, the script that a run
//! plays, and what a run reports.
#![tactic(auto)]

mod answer;
mod assigned;
mod atomic;
mod laws;
mod plain;
mod plan;
mod report;
mod request;
#[cfg(test)]
mod tests;
mod value;

pub use answer::answer_to;
pub use assigned::assigned_to;
pub use laws::{folds_are_in_order, keys_change_by_themselves};
pub use plain::{PlainMap, fold_to};
pub use plan::{Act, Do, Kind, LifePlan, Script, Settings};
pub use report::{Answered, Damage, Ending, Event, Fault, ForeignPart, Life};
pub use request::{Answer, Ask, Found, Request};
pub use st_key::MetaPart;
pub use value::value_to;
