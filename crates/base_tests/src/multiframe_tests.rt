// Worked turns of the phase.
ghost use Rattle.std.specs.Prelude.{◌≡◌};

use multiframe::{Phase, starts};
use otn_base::LineKind;

// A turn of a new phase that locks on the first MFAS and takes these.
fn turn(first: u8, taken: &[u8], kind: LineKind) -> (bool, Phase)
    ensures { result.1.kind ≡ kind }
{
    let mut phase = Phase::new(kind);
    if first % kind.slots() == 0 && taken.len() <= kind.slots() as usize {
        phase.lock(first);
        for mfas in taken {
            phase.take(*mfas);
        }
    }
    (phase.end_turn(), phase)
}

#[test]
fn begins_at_a_multiple_of_the_slots(rt: HostRuntime) {
    for (first, second, of_eight, of_32) in [
        (0, 1, true, true),
        (248, 249, true, false),
        (224, 225, true, true),
        (8, 10, false, false),
        (9, 10, false, false),
        (255, 0, false, false),
    ] {
        let begins = (
            starts(first, second, LineKind::Otu2),
            starts(first, second, LineKind::Otu3),
        );
        assert_eq!(rt; begins, (of_eight, of_32), "{first} {second}");
    }
}

// Whether such a turn is whole, and the MFAS that is expected n frames after it, if the line does not hunt then.
fn ended(first: u8, taken: &[u8], kind: LineKind, n: u8) -> (bool, Option<u8>) {
    let (whole, phase) = turn(first, taken, kind);
    if phase.hunting() || n >= kind.slots() {
        return (whole, None);
    }
    (whole, Some(phase.expected(n)))
}

// A turn of these MFAS bytes, of which the first was expected: whether it is whole, and the MFAS that is expected n
// frames after it.
#[derive(Clone, Copy)]
struct Case<'a> {
    first: u8,
    taken: &'a [u8],
    n: u8,
    whole: bool,
    expected: Option<u8>,
}

#[test]
fn ends_turns(rt: HostRuntime) {
    let cases = [
        // round at 256
        Case {
            first: 248,
            taken: &[248, 249, 250, 251, 252, 253, 254, 255],
            n: 0,
            whole: true,
            expected: Some(0),
        },
        // four are wrong, and five
        Case {
            first: 8,
            taken: &[8, 9, 10, 11, 0, 0, 0, 0],
            n: 7,
            whole: true,
            expected: Some(23),
        },
        Case {
            first: 8,
            taken: &[8, 9, 10, 0, 0, 0, 0, 0],
            n: 0,
            whole: false,
            expected: None,
        },
        // cut short
        Case {
            first: 8,
            taken: &[8, 9, 10, 11, 12, 13, 14],
            n: 0,
            whole: false,
            expected: Some(8),
        },
    ];
    for case in cases {
        assert_eq!(rt;
            ended(case.first, case.taken, LineKind::Otu2, case.n),
            (case.whole, case.expected),
            "{:?}",
            case.taken
        );
    }
}

// The MFAS bytes from 64 to 95, of which the last `wrong` are 0.
fn of_32(wrong: u8) -> [u8; 32] {
    let mut taken = [0; 32];
    let mut next = 64_u8;
    for mfas in &mut taken {
        if next < 96_u8.saturating_sub(wrong) {
            *mfas = next;
        }
        next = next.saturating_add(1);
    }
    taken
}

#[test]
fn ends_turns_of_32(rt: HostRuntime) {
    let eight = [64, 65, 66, 67, 68, 69, 70, 71];
    let (by_sixteen, _) = turn(64, &of_32(16), LineKind::Otu3);
    // five are wrong, sixteen, and seventeen; and eight frames are no multiframe of 32
    assert_eq!(rt;
        (
            ended(64, &of_32(5), LineKind::Otu3, 31),
            by_sixteen,
            ended(64, &of_32(17), LineKind::Otu3, 0),
            ended(64, &eight, LineKind::Otu3, 0)
        ),
        ((true, Some(127)), true, (false, None), (false, Some(64)))
    );
}
