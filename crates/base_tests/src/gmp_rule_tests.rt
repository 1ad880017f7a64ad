// The data rule at numbers whose groups are known by hand.
ghost use Rattle.std.specs.Prelude.{◌≡◌, ◌≤◌};

use gmp_rule::{Runner, data_groups, is_data};
use otn_base::limits::GROUPS;

// The groups of a multiframe, in the type of the numbers here.
const ALL: u32 = GROUPS as u32;

// At C data groups the stuff groups are those whose number leaves this remainder by this divisor, or all others are.
#[derive(Clone, Copy)]
struct AtC {
    c: u32,
    divisor: u32,
    remainder: u32,
    listed_are_stuff: bool,
}

const CASES: [AtC; 5] = [
    // An ODU0 at its nominal rate: every 238th group is stuff, 64 in all.
    AtC {
        c: 15_168,
        divisor: 238,
        remainder: 1,
        listed_are_stuff: true,
    },
    // One data group, the last.
    AtC {
        c: 1,
        divisor: 15_232,
        remainder: 0,
        listed_are_stuff: false,
    },
    // One stuff group, the first.
    AtC {
        c: 15_231,
        divisor: 15_232,
        remainder: 1,
        listed_are_stuff: true,
    },
    // No group is data, and all are.
    AtC {
        c: 0,
        divisor: 1,
        remainder: 0,
        listed_are_stuff: true,
    },
    AtC {
        c: 15_232,
        divisor: 1,
        remainder: 0,
        listed_are_stuff: false,
    },
];

#[test]
fn groups_of_known_numbers(rt: HostRuntime) {
    for AtC {
        c,
        divisor,
        remainder,
        listed_are_stuff,
    } in CASES {
        let mut runner = Runner::start(c.min(ALL));
        let mut data = 0u64;
        for j in 1..15_233u32 {
            let listed = j % divisor.max(1) == remainder;
            let wanted = listed != listed_are_stuff;
            if wanted {
                data = data.saturating_add(1);
            }
            let here = is_data(j, c.min(ALL));
            let counted = data_groups(j, c.min(ALL)) as u64;
            assert_eq!(rt;
                (here, runner.next(), counted),
                (wanted, wanted, data),
                "group {j} at {c}"
            );
        }
        assert_eq!(rt; data, c as u64, "all groups at {c}");
    }
}

// At each number: how many data groups follow the first group one after the other.
const RUNS: [(u32, u32); 6] = [
    // Groups 1 and 239 are stuff.
    (15_168, 237),
    // Every other group is data, from the second on.
    (7_616, 1),
    (1, 0),
    (15_231, 15_231),
    (0, 0),
    (15_232, 15_231),
];

#[test]
fn runs_of_known_numbers(rt: HostRuntime) {
    for (c, run) in RUNS {
        let mut runner = Runner::start(c.min(ALL));
        let _first = runner.next();
        let few = runner.data_run(100);
        assert_eq!(rt; few, run.min(100), "100 groups at {c}");
        let rest = runner.data_run(15_131);
        assert_eq!(rt; few.saturating_add(rest), run, "all groups at {c}");
    }
}
