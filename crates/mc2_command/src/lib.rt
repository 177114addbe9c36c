//! All that the program `mc2` does: it runs scripts into records, judges and orders records, sums them up, and writes an old one in
//! the new form.
#![tactic(auto)]

mod answers;
mod arguments;
mod commands;
mod fault;
mod input;
mod sim_laws;
mod table;

pub use answers::{
    audit_answer, merge_answer, report_answer, run_answer, sim_answer, upgrade_answer,
};
pub use arguments::{Arguments, read_words};
pub use commands::{command, refuse};
pub use fault::CommandFault;
pub use sim_laws::{forms_are_asked, simulations_have_no_cycle};
