//! Tests of a node and of what it is made of: plans (`plan_file`), a tributary's sink and source, each alone and both
//! over a line (`trib_sink`, `trib_source`), a connection's pipe (`cross_matrix`), and whole nodes (`node_core`).
#![tactic(auto)]

#[cfg(test)]
mod asking;
#[cfg(test)]
mod orders;
#[cfg(test)]
mod outcomes;
#[cfg(test)]
mod over_a_line;
#[cfg(test)]
mod pipes;
#[cfg(test)]
mod plans;
#[cfg(test)]
mod sinks;
#[cfg(test)]
mod sources;
