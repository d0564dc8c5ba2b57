//! Checks or runs a testbench, from its words to its answer.
#![tactic(auto)]

mod answer;
mod answering;
mod files;
mod linked;
mod reading;
mod refusals;
mod report_text;
mod top;

pub use report_text::report;
pub use run_rules::Status;
pub use top::top_plain;
