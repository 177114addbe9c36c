//! The judge for callers in C: a static library over `auditor` and `log_merge`. Records of objects whose kinds are the writer's
//! own it judges by how many steps of each log are right.
#![tactic(auto)]

mod audit;
mod custom_audit;
mod custom_judge;
mod custom_line;
mod custom_merge;
mod custom_merge_judge;
mod custom_report;
mod custom_rows;
mod kernel_log;
mod line_law;
mod merge;
mod model_law;
mod report;

pub use audit::mc2_audit;
pub use custom_audit::mc2_custom_audit;
pub use custom_judge::{CustomJudge, Mistold};
pub use custom_line::mc2_custom_line;
pub use custom_merge::mc2_custom_merge;
pub use custom_merge_judge::{CustomMergeFault, CustomMergeJudge};
pub use custom_report::{LineReport, SaidReport, StepReport};
pub use kernel_log::mc2_custom_kernel;
pub use line_law::lines_are_read;
pub use merge::{Turn, mc2_merge};
pub use model_law::some_model_has_the_counts;
pub use report::Report;
