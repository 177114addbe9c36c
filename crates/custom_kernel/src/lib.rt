//! The four kinds of objects of the kernel as models of records of one's own.
#![tactic(auto)]

mod count;
mod lines;
mod model;
mod params;
mod said;

pub use count::KernelCount;
pub use lines::kernel_count;
pub use model::KernelModel;
pub use params::kernel_params;
