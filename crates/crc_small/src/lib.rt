//! The four cyclic checks of the device, each the remainder of long division over bits, and the one
//! correction that a header's check allows.
//!
//! - [`crc8`] and [`crc5`] are the checks of a justification message (G.709 Annex D).
//! - [`crc16`] is the check of a GFP header (G.7041 clause 6.1.1.2), and [`fix_one_bit`] mends a header
//!   with a single wrong bit by it.
//! - [`crc32`] is the frame check sequence of a GFP payload (G.7041 clause 6.1.2.2.1).
#![tactic(auto)]

mod frame_check;
mod frame_tables;
mod header_check;
mod long_message;
mod message_check;
mod steps;
mod tables;

pub use frame_check::crc32;
pub use header_check::{crc16, fix_one_bit};
pub use message_check::{crc5, crc8};
