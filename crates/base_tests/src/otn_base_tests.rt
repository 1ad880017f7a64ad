// Lists of slots and trail traces, at worked values.
use otn_base::{LineKind, Slots, Trace};
use std::test::Fail;

// Whether these are slots of a line of 8, and of one of 32.
fn are_slots(list: &[u8]) -> (bool, bool) {
    (
        Slots::new(list, LineKind::Otu2).is_some(),
        Slots::new(list, LineKind::Otu3).is_some(),
    )
}

#[test]
fn slots_rise_from_one_to_the_last(rt: HostRuntime) -> Result<(), Fail> {
    let refused: [&[u8]; 7] = [
        &[],
        &[0],
        &[33],
        &[3, 3],
        &[4, 2],
        &[0, 1, 2, 3],
        &[31, 32, 33],
    ];
    for list in refused {
        assert_eq!(rt; are_slots(list), (false, false), "{list:?}");
    }
    let beyond: [&[u8]; 3] = [&[9], &[8, 9], &[1, 2, 3, 4, 5, 6, 7, 8, 9]];
    for list in beyond {
        assert_eq!(rt; are_slots(list), (false, true), "{list:?}");
    }
    let slots = Slots::new(&[2, 5, 8], LineKind::Otu2).ok_or("refused")?;
    assert_eq!(rt;
        (
            slots.kind(),
            slots.count(),
            slots.last(),
            slots.has(5),
            slots.has(3)
        ),
        (LineKind::Otu2, 3, 8, true, false)
    );
    assert_eq!(rt; slots.as_slice(), [2, 5, 8].as_slice());
    let wide = Slots::new(&[2, 17, 32], LineKind::Otu3).ok_or("refused")?;
    assert_eq!(rt; (wide.kind().slots(), wide.last()), (32, 32));
    Ok(())
}

#[test]
fn a_trace_repeats_every_64_frames(rt: HostRuntime) -> Result<(), Fail> {
    let too_long = Trace::new(b"sixteen letters!").is_none();
    let unprinted = Trace::new(b"tab\t").is_none();
    assert_eq!(rt; (too_long, unprinted), (true, true));
    let trace = Trace::new(b"LINE-2").ok_or("refused")?;
    for (mfas, byte) in [
        (0, 0),
        (1, b'L'),
        (6, b'2'),
        (7, 0),
        (16, 0),
        (63, 0),
        (65, b'L'),
        (198, b'2'),
    ] {
        assert_eq!(rt; trace.byte(mfas), byte, "at MFAS {mfas}");
    }
    Ok(())
}
