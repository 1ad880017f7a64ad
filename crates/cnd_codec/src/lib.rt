//! GMP's justification message both ways, as far as it carries the remainder: the bytes JC4 to JC6 of
//! G.709 Annex D, whose ten bits D1 to D10 tell how many bytes are left over beside the whole groups.
//!
//! [`say_d`] gives the bytes, and [`hear_d`] reads them.
#![tactic(auto)]

mod remainder;

pub use remainder::{hear_d, say_d};
