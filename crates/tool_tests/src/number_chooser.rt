// The chooser drawn from a number.
use line_tool::NumberChooser;
use port_base::Chooser;

#[test]
fn a_number_settles_its_choices(rt: HostRuntime) {
    let mut one = NumberChooser::new(7);
    let mut other = NumberChooser::new(7);
    for word in [
        0x9191_5ee9,
        0x18ae_1cbe,
        0xa388_049d,
        0xd219_3ac4,
        0x8d5c_3bbc,
        0x518e_b1ad_u32,
    ] {
        assert_eq!(rt; (one.pick(3), other.pick(40)), (word, word));
    }
    let mut last = NumberChooser::new(u64::MAX);
    assert_eq!(rt; (last.pick(1), last.pick(1)), (0x982f_997e, 0x513d_a686));
}
