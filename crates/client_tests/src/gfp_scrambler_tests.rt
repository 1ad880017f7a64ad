// Fixed payload areas, both ways.
use gfp_scrambler::{Descrambler, Scrambler};

// The plain areas of four packets of two bytes, and what a new scrambler sends for them. The pieces
// are no whole areas: where a call begins makes no difference.
static PLAIN: [u8; 24] = [
    0x00, 0x01, 0x10, 0x21, 0x11, 0x11, 0x00, 0x01, 0x10, 0x21, 0x22, 0x22, 0x00, 0x01, 0x10, 0x21,
    0x33, 0x33, 0x00, 0x01, 0x10, 0x21, 0x44, 0x44,
];

static SENT: [u8; 24] = [
    0x00, 0x01, 0x10, 0x21, 0x11, 0x11, 0x00, 0x23, 0x14, 0x03, 0x00, 0x02, 0x04, 0x63, 0x90, 0x41,
    0x33, 0x73, 0x8C, 0x73, 0x18, 0x07, 0x2A, 0x35,
];

#[test]
fn areas_joined_are_one_list_of_bits(rt: HostRuntime) {
    let mut bytes = PLAIN;
    let mut scrambler = Scrambler::new();
    scrambler.scramble(&mut bytes[..10]);
    scrambler.scramble(&mut []);
    scrambler.scramble(&mut bytes[10..]);
    assert_eq!(rt; bytes, SENT);
    let mut at_once = PLAIN;
    Scrambler::new().scramble(&mut at_once);
    assert_eq!(rt; at_once, SENT);
    let mut descrambler = Descrambler::new();
    descrambler.descramble(&mut bytes[..10]);
    descrambler.descramble(&mut bytes[10..]);
    assert_eq!(rt; bytes, PLAIN);
}
