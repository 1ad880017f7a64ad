//! Which groups of a multiframe carry data at a number, by the sigma-delta rule of GMP (G.709 Annex D):
//! asked at one group (`is_data`), counted (`data_groups`), or over the groups in order, one by one or
//! by runs of data (`Runner`).
#![tactic(auto)]

mod rule;
mod runner;

use otn_base::limits::GROUPS;
pub use rule::{data_groups, is_data};
pub use runner::Runner;

// The groups of a multiframe, in the type of the numbers here.
const ALL: u32 = GROUPS as u32;
