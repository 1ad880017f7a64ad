//! Tests of the top call, over the library `line_tool`: whole runs of plans, and of channels, over ports in memory.
#![tactic(auto)]

#[cfg(test)]
mod captures;
#[cfg(test)]
mod channels;
#[cfg(test)]
mod damage;
#[cfg(test)]
mod plan_faults;
#[cfg(test)]
mod plan_ports;
#[cfg(test)]
mod plan_rows;
#[cfg(test)]
mod plan_runs;
