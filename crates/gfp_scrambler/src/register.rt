// Numbers of the register of 43 bits.

/// 2^35: what of the register is above it goes out when a byte comes in, and stands 43 places before
/// that byte.
pub const BELOW_KEY: u64 = 0x8_0000_0000;

/// 2^43: the register holds what a number is modulo this.
pub const REGISTER: u64 = 0x800_0000_0000;
