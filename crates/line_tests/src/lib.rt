//! Tests of ports and of the sides of a line, over the libraries `otn_ports` and `line_side`.
#![tactic(auto)]

#[cfg(test)]
mod ahead;
#[cfg(test)]
mod lines;
#[cfg(test)]
mod ports;
