//! Worked examples of the layers of a client: packets as text and captures, GFP, and ODU frames, one file a
//! library. There is nothing in this crate but tests.
#![tactic(auto)]

#[cfg(test)]
mod gfp_frames_tests;
#[cfg(test)]
mod gfp_linear_tests;
#[cfg(test)]
mod gfp_scrambler_tests;
#[cfg(test)]
mod odu_client_tests;
#[cfg(test)]
mod packet_text_tests;
#[cfg(test)]
mod pcap_packets_tests;
