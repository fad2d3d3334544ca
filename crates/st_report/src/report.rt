//! The report of a run.
use st_fold::{Fault, Life};
use st_list::Items;

/// Which text of a report is written.
#[derive(Clone, Copy, Debug, PartialEq, Eq)]
pub enum Form {
    /// The answers of each life, without its trace.
    Answers,
    /// The events of each life, and its answers with the places of their polls.
    Trace,
    /// The number of lives, without their answers.
    Summary,
}

/// What a run says of itself.
#[derive(Debug, Drop)]
pub struct Report {
    /// 0 where there is no fault, and else the number of the fault.
    pub status: u8,
    pub fault: Option<Fault>,
    /// The lives that were begun, in order.
    pub lives: Items<Life>,
    pub form: Form,
}
