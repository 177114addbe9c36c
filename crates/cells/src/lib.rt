//! Cells for callers in C: a static library over `cell_callers`, whose exports C programs call.
#![tactic(auto)]

mod exports;
mod handles;
mod names;

pub use exports::{
    mc2_acquire_step, mc2_handle_apply, mc2_poll_batch, mc2_poll_call, mc2_poll_try_acquire,
    mc2_poll_try_call, mc2_release_step,
};
pub use handles::{
    mc2_handle_alloc_caller, mc2_handle_alloc_cell, mc2_handle_close_cell, mc2_handle_drop_log,
    mc2_handle_free_caller, mc2_handle_free_cell, mc2_handle_open_caller, mc2_handle_open_cell,
    mc2_handle_read_step, mc2_handle_reopen_cell, mc2_handle_return_caller,
};
pub use names::{mc2_poll_deq, mc2_poll_enq, mc2_poll_next, mc2_poll_ready};
