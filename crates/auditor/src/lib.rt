//! Judges a run: sound, or the first fault.
//!
//! It answers all calls a second time, by lists of its own. Of the objects' crates it calls only the `==` of calls and replies.
#![tactic(auto)]

mod compare;
mod entries;
mod fault;
mod fault_laws;
mod judge;
mod judge_state;
mod judged_run;
mod kept_log;
mod next_events;
mod opened_object;
mod packed_log;
mod packed_steps;
mod received_run;
mod record_audit;
mod record_judge;
mod references;
mod replay;
mod run_judge;
mod step_judge;
mod step_rows;
mod steps;
mod texts;
mod texts_of_steps;
mod unclaimed_events;
mod verdict_text;

pub use compare::are_same;
pub use fault::{Fault, Verdict};
pub use fault_laws::{first_faults_agree, no_fault_is_sound, sound_has_no_fault};
pub use judge::judge_run;
pub use judged_run::JudgedRun;
pub use opened_object::OpenedObject;
pub use record_audit::audit;
pub use record_judge::RecordJudge;
pub use record_lines::TextFault;
pub use references::{
    ReferenceConsole, ReferenceKernelObject, ReferenceObject, ReferencePool, ReferenceQueue,
    ReferenceSched,
};
pub use run_judge::RunJudge;
pub use step_judge::{Counted, Replayed, StepJudge};
pub use step_rows::StepRows;
pub use texts::audit_text;
pub use verdict_text::{fault_text, verdict_line};
