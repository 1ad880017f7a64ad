// Choices turn by turn, as an independent model of the selector has them.
use crate::{Choice, Selector, Side, SwitchCause};
use tributary_model::SinkState;

// How the working line's sink stands and how many bytes it emits, the same of protection; and the side, what is skipped
// and the cause.
#[derive(Drop)]
struct Row(
    SinkState,
    usize,
    SinkState,
    usize,
    Side,
    usize,
    Option<SwitchCause>,
);

#[test]
fn revertive_after_two_turns(rt: HostRuntime) {
    use SinkState::{Down, Up, Waiting};
    let mut selector = Selector::new(3, 2);
    for Row(working, working_len, protection, protection_len, side, skip, cause) in [
        Row(Waiting, 0, Waiting, 0, Side::Working, 0, None),
        Row(Up, 8, Waiting, 0, Side::Working, 0, None),
        Row(
            Down,
            5,
            Up,
            1,
            Side::Protection,
            1,
            Some(SwitchCause::Defect),
        ),
        Row(Up, 6, Up, 0, Side::Protection, 0, None),
        Row(Up, 10, Up, 5, Side::Working, 1, Some(SwitchCause::Restored)),
        Row(Down, 6, Down, 9, Side::Working, 0, None),
        Row(Waiting, 3, Waiting, 7, Side::Working, 0, None),
    ] {
        let choice = selector.pick(working, working_len, protection, protection_len);
        let expected = Choice { side, skip, cause };
        assert_eq!(rt; choice, expected);
    }
}
