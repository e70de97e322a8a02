//! The consistency models of the Linux livepatching tradition, and all models by their names.
#![tactic(auto)]

mod all_at_once;
mod hybrid;
mod immediate;
mod leave_kernel;
mod name;
mod row;

pub use all_at_once::AllAtOnce;
pub use hybrid::Hybrid;
pub use immediate::Immediate;
pub use leave_kernel::LeaveKernel;
pub use lp_model::Consistency;
pub use lp_process::ProcessGroup;
pub use name::ModelName;
