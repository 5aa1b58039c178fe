//! The stages of the work on texts, each a call that follows the work of its name in `specs/`: it gives what
//! the work gives, or refuses as the work does. A stage knows nothing of the commands that it serves.
#![tactic(auto)]

mod connect;
mod device;
mod elab;
mod fit;
mod icl;
mod laws;
mod nest;
mod net_names;
mod network;
mod pdl;
mod procedure;
mod refusal;
mod svf;
mod tables;

pub use connect::connect_hierarchy;
pub use device::read_device;
pub use elab::elaborate_design;
pub use fit::fit_tables;
pub use icl::read_icl;
pub use laws::{stages_are_decided, stages_are_total};
pub use nest::refusal_of_nest;
pub use network::{Network, read_network};
pub use pdl::read_pdl;
pub use procedure::check_procedure;
pub use refusal::{
    Arg, Refusal, Stage, StageFault, put_refusal, refused, refused_limit, refused_name,
    refused_number,
};
pub use svf::read_svf;
pub use tables::read_tables;
