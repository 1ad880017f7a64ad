// Plans that a person might write, with what is said of each: one for each part of each rule, and more
// where rules meet. What is wanted is the rule that is broken first, by its number, and its place, or how
// many connections are accepted.
use otn_base::{Kind, LineKind, Slots, Trace};
use plan_file::{
    Connection, Connections, FromEnd, LineList, Name, NoPlan, Pace, Plan, PlanError, ToEnd,
};
use std::alloc::{AllocError, Global};
use std::process::Abort;
use std::test::Fail;

// Whole texts.
const TEXTS: [(&str, &str); 34] = [
    ("1 at 0", "turns ="),
    ("1 at 0", "turns = 8\nturns = 8"),
    ("2 at 0", "turns = 8\nretire = true"),
    ("2 at 0", "turns = 8\notu3-in = [1]"),
    ("2 at 0", "version = 1\nturns = 8\nscrambled-out = []"),
    ("2 at 0", "version = 3\nturns = 8\notu3-in = [1]"),
    ("2 at 0", "version = 2\nturns = 8\nscrambled = []"),
    ("2 at 0", "name = 1\n[[connection]]\nfoo = 1"),
    ("3 at 0", "version = 1"),
    ("3 at 0", "[[connection]]\nname = 1"),
    ("4 at 0", "turns = \"8\""),
    ("4 at 0", "turns = 8.0"),
    ("4 at 0", "turns = { a = 1 }"),
    ("4 at 0", "version = 3\nturns = 8"),
    ("4 at 0", "version = 2\nturns = 8\nscrambled-out = 1"),
    ("4 at 0", "version = 2\nturns = 8\notu3-out = [true]"),
    ("4 at 0", "version = -1\nturns = 8"),
    ("4 at 0", "version = true\nturns = 0"),
    ("4 at 0", "turns = 8\nconnection = 1"),
    ("4 at 0", "turns = 8\n[connection]\nfoo = 1"),
    ("4 at 0", "turns = 8\nconnection = [5]"),
    ("5 at 0", "turns = 0"),
    ("5 at 0", "turns = -1"),
    ("5 at 0", "turns = 16385"),
    ("5 at 0", "turns = 20000000000"),
    ("9 at 0", "version = 2\nturns = 8\notu3-in = [1, 1]"),
    ("9 at 0", "version = 2\nturns = 8\notu3-out = [1, 0]"),
    ("9 at 0", "version = 2\nturns = 8\nscrambled-in = [4]"),
    ("9 at 0", "version = 2\nturns = 8\nscrambled-out = [-1]"),
    ("5 at 0", "version = 2\nturns = 0\nscrambled-out = [-1]"),
    ("accepted 0", "turns = 1"),
    ("accepted 0", "version = 2\nturns = 8"),
    (
        "accepted 0",
        "version = 2\nturns = 8\notu3-in = [0, 1, 2, 3]\notu3-out = []\nscrambled-in = [3]\nscrambled-out = [0, 2]",
    ),
    ("accepted 0", "version = 1\nturns = 16384\nconnection = []"),
];

// The connections of a plan of eight turns, a list on each line, all of OTU2 lines.
const CONNECTIONS: &str = r#"
accepted 1: { name = "a", kind = "odu0", from = { client = 0 }, to = { line = 0, port = 1, slots = [3] } }
accepted 2: { name = "a", kind = "odu0", from = { client = 0 }, to = { line = 0, port = 1, slots = [3] } }, { name = "b", kind = "odu0", from = { client = 1 }, to = { line = 1, port = 1, slots = [3] } }
accepted 1: { name = "b", kind = "odu0", from = { signal = "oci" }, to = { line = 1, port = 1, slots = [3] }, pace = [15167, 15169] }
accepted 1: { name = "b", kind = "flex", from = { signal = "lck" }, to = { line = 0, port = 8, slots = [1, 2, 8] }, pace = [3, 45696] }
accepted 1: { name = "b", kind = "odu0", from = { line = 3, port = 8, slots = [8] }, to = { client = 15 }, start = 8, stop = 8 }
accepted 1: { name = "b", kind = "odu0", from = { client = 0 }, to = { line = 1, port = 1, slots = [3] }, fcs = false, trace = " ABC/12 34~xyz" }
accepted 1: { name = "z0-9aaaaaaaaaaaaaaaaaaaaaaaaaaaa", kind = "flex", from = { line = 0, port = 1, slots = [1, 2] }, to = { line = 0, port = 2, slots = [7, 8] } }
accepted 1: { name = "b", kind = "odu0", from = { client = 1 }, to = { line = 1, port = 1, slots = [3] }, retire = true }
accepted 1: { name = "b", kind = "odu0", from = { line = 1, port = 1, slots = [3] }, to = { client = 1 }, retire = true }
accepted 1: { name = "b", kind = "odu0", from = { line = 1, port = 1, slots = [3] }, to = { line = 1, port = 1, slots = [3] }, retire = false }
15 at 1: { name = "b", kind = "odu0", from = { line = 1, port = 1, slots = [3] }, to = { line = 1, port = 1, slots = [3] }, retire = true }
15 at 1: { name = "b", kind = "odu0", from = { signal = "oci" }, to = { line = 1, port = 1, slots = [3] }, retire = true }
4 at 1: { name = "b", kind = "odu0", from = { client = 1 }, to = { line = 1, port = 1, slots = [3] }, retire = 1 }
2 at 1: { name = "b", kind = "odu0", from = { client = 1 }, to = { line = 1, port = 1, slots = [3] }, retired = true }
2 at 1: { name = "b", kind = "odu0", from = { client = 1 }, to = { line = 1, port = 1, slots = [3] }, Start = 1 }
2 at 1: { name = "b", kind = "odu0", from = { client = 1, line = 1 }, to = { line = 1, port = 1, slots = [3] } }
2 at 1: { name = "b", kind = "odu0", from = { signal = "oci", port = 1 }, to = { line = 1, port = 1, slots = [3] } }
2 at 1: { name = "b", kind = "odu0", from = { line = 0, port = 1, slots = [1], client = 1 }, to = { line = 1, port = 1, slots = [3] } }
2 at 1: { name = "b", kind = "odu0", from = { line = 0, port = 1, slot = [1] }, to = { line = 1, port = 1, slots = [3] } }
2 at 1: { name = "b", kind = "odu0", from = { client = 1 }, to = { signal = "oci" } }
2 at 1: { name = "b", kind = "odu0", from = { client = 1 }, to = { client = 1, port = 2 } }
2 at 1: { name = "b", kind = "odu0", from = { line = 1, port = 1, slots = [3] }, to = { client = 0 }, pace = [15168] }
2 at 1: { name = "b", kind = "odu0", from = { line = 1, port = 1, slots = [3] }, to = { client = 0 }, fcs = true }
2 at 1: { name = "b", kind = "odu0", from = { signal = "lck" }, to = { line = 1, port = 1, slots = [3] }, trace = "A" }
2 at 1: { name = "b", kind = "odu0", from = { signal = "lck" }, to = { line = 1, port = 1, slots = [3] }, fcs = true }
2 at 3: 7, { name = "a", kind = "odu0", from = { client = 0 }, to = { line = 0, port = 1, slots = [3] } }, { name = "b", kind = "odu0", from = { client = 1 }, to = { line = 1, port = 1, slots = [3] }, x = 1 }
3 at 1: { kind = "odu0", from = { client = 0 }, to = { client = 0 } }
3 at 1: { name = "a", from = { client = 0 }, to = { client = 0 } }
3 at 1: { name = "a", kind = "odu0", to = { client = 0 } }
3 at 1: { name = "a", kind = "odu0", from = { client = 0 } }
3 at 1: { name = "b", kind = "odu0", from = { port = 1, slots = [1] }, to = { line = 1, port = 1, slots = [3] } }
3 at 1: { name = "b", kind = "odu0", from = { line = 1, slots = [1] }, to = { line = 1, port = 1, slots = [3] } }
3 at 1: { name = "b", kind = "odu0", from = { line = 1, port = 1 }, to = { line = 1, port = 1, slots = [3] } }
3 at 1: { name = "b", kind = "odu0", from = {}, to = { line = 1, port = 1, slots = [3] } }
3 at 1: { name = "b", kind = "odu0", from = { client = 1 }, to = { port = 1, slots = [1] } }
3 at 1: { name = "b", kind = "odu0", from = { client = 1 }, to = { line = 1, slots = [1] } }
3 at 1: { name = "b", kind = "odu0", from = { client = 1 }, to = { line = 1, port = 1 } }
3 at 2: { name = "a", kind = "odu0", from = { client = 0 }, to = { line = 0, port = 1, slots = [3] } }, { name = "b", pace = [1], fcs = 7, trace = 7 }
4 at 0: { name = "a", kind = "odu0", from = { client = 0 }, to = { line = 0, port = 1, slots = [3] } }, 7
4 at 1: { name = 1, kind = "odu0", from = { client = 0 }, to = { client = 0 } }
4 at 1: { name = "b", kind = "ODU0", from = { client = 1 }, to = { line = 1, port = 1, slots = [3] } }
4 at 1: { name = "a", kind = ["odu0"], from = { client = 0 }, to = { client = 0 } }
4 at 1: { name = "b", kind = "odu0", from = "lck", to = { line = 1, port = 1, slots = [3] } }
4 at 1: { name = "b", kind = "odu0", from = 7, to = { line = 1, port = 1, slots = [3] }, pace = [1], fcs = true, trace = "" }
4 at 1: { name = "b", kind = "odu0", from = { client = 1 }, to = [1] }
4 at 1: { name = "b", kind = "odu0", from = { signal = "ais" }, to = { line = 1, port = 1, slots = [3] } }
4 at 1: { name = "b", kind = "odu0", from = { signal = 1 }, to = { line = 1, port = 1, slots = [3] } }
4 at 1: { name = "b", kind = "odu0", from = { client = "1" }, to = { line = 1, port = 1, slots = [3] } }
4 at 1: { name = "b", kind = "odu0", from = { client = 1 }, to = { client = 1.5 } }
4 at 1: { name = "b", kind = "odu0", from = { line = "1", port = 1, slots = [1] }, to = { line = 1, port = 1, slots = [3] } }
4 at 1: { name = "b", kind = "odu0", from = { client = 1 }, to = { line = 1, port = true, slots = [1] } }
4 at 1: { name = "b", kind = "odu0", from = { client = 1 }, to = { line = 1, port = 1, slots = 1 } }
4 at 1: { name = "b", kind = "odu0", from = { client = 1 }, to = { line = 1, port = 1, slots = [1, "2"] } }
4 at 1: { name = "b", kind = "odu0", from = { client = 1 }, to = { line = 1, port = 1, slots = [{ a = 1 }] } }
4 at 1: { name = "b", kind = "odu0", from = { client = 1 }, to = { line = 1, port = 1, slots = [3] }, pace = 15168 }
4 at 1: { name = "b", kind = "odu0", from = { client = 1 }, to = { line = 1, port = 1, slots = [3] }, pace = [15168, []] }
4 at 1: { name = "b", kind = "odu0", from = { client = 1 }, to = { line = 1, port = 1, slots = [3] }, fcs = "yes" }
4 at 1: { name = "b", kind = "odu0", from = { client = 1 }, to = { line = 1, port = 1, slots = [3] }, trace = 1 }
4 at 1: { name = "b", kind = "odu0", from = { client = 1 }, to = { line = 1, port = 1, slots = [3] }, start = "1" }
4 at 1: { name = "b", kind = "odu0", from = { client = 1 }, to = { line = 1, port = 1, slots = [3] }, stop = 2.0 }
7 at 1: { name = "", kind = "odu0", from = { client = 1 }, to = { line = 1, port = 1, slots = [3] } }
7 at 1: { name = "aaaaaaaaaaaaaaaaaaaaaaaaaaaaaaaaa", kind = "odu0", from = { client = 1 }, to = { line = 1, port = 1, slots = [3] } }
7 at 1: { name = "aB", kind = "odu0", from = { client = 1 }, to = { line = 1, port = 1, slots = [3] } }
7 at 1: { name = "a_b", kind = "odu0", from = { client = 1 }, to = { line = 1, port = 1, slots = [3] } }
7 at 1: { name = "a b", kind = "odu0", from = { client = 1 }, to = { line = 1, port = 1, slots = [3] } }
7 at 1: { name = "é", kind = "odu0", from = { client = 1 }, to = { line = 1, port = 1, slots = [3] } }
7 at 1: { name = "b", kind = "odu0", from = { client = 1 }, to = { line = 1, port = 1, slots = [3] }, trace = "xxxxxxxxxxxxxxxx" }
7 at 1: { name = "b", kind = "odu0", from = { client = 1 }, to = { line = 1, port = 1, slots = [3] }, trace = "a\tb" }
7 at 1: { name = "b", kind = "odu0", from = { client = 1 }, to = { line = 1, port = 1, slots = [3] }, trace = "a\u007F" }
8 at 3: { name = "a", kind = "odu0", from = { client = 0 }, to = { line = 0, port = 1, slots = [3] } }, { name = "b", kind = "odu0", from = { client = 1 }, to = { line = 1, port = 1, slots = [3] } }, { name = "a", kind = "odu0", from = { client = 2 }, to = { line = 2, port = 1, slots = [3] } }
9 at 1: { name = "b", kind = "odu0", from = { client = 16 }, to = { line = 1, port = 1, slots = [3] } }
9 at 1: { name = "b", kind = "odu0", from = { client = -1 }, to = { line = 1, port = 1, slots = [3] } }
9 at 1: { name = "b", kind = "odu0", from = { client = 4294967296 }, to = { line = 1, port = 1, slots = [3] } }
9 at 1: { name = "b", kind = "odu0", from = { client = 1 }, to = { line = 4, port = 1, slots = [3] } }
9 at 1: { name = "b", kind = "odu0", from = { client = 1 }, to = { line = -1, port = 1, slots = [3] } }
9 at 1: { name = "b", kind = "odu0", from = { client = 1 }, to = { line = 0, port = 0, slots = [3] } }
9 at 1: { name = "b", kind = "odu0", from = { client = 1 }, to = { line = 0, port = 9, slots = [3] } }
9 at 1: { name = "b", kind = "odu0", from = { line = 256, port = 1, slots = [3] }, to = { client = 0 } }
9 at 1: { name = "b", kind = "odu0", from = { line = 0, port = 257, slots = [3] }, to = { client = 0 } }
9 at 1: { name = "b", kind = "odu0", from = { line = 1, port = 1, slots = [3] }, to = { client = 16 } }
9 at 1: { name = "b", kind = "odu0", from = { client = 1 }, to = { client = 1 } }
9 at 1: { name = "b", kind = "odu0", from = { signal = "oci" }, to = { client = 1 } }
10 at 1: { name = "b", kind = "flex", from = { client = 1 }, to = { line = 1, port = 1, slots = [] } }
10 at 1: { name = "b", kind = "odu0", from = { client = 1 }, to = { line = 1, port = 1, slots = [0] } }
10 at 1: { name = "b", kind = "odu0", from = { client = 1 }, to = { line = 1, port = 1, slots = [9] } }
10 at 1: { name = "b", kind = "odu0", from = { client = 1 }, to = { line = 1, port = 1, slots = [259] } }
10 at 1: { name = "b", kind = "flex", from = { client = 1 }, to = { line = 1, port = 1, slots = [3, 3] } }
10 at 1: { name = "b", kind = "flex", from = { client = 1 }, to = { line = 1, port = 1, slots = [3, 2] } }
10 at 1: { name = "b", kind = "flex", from = { client = 1 }, to = { line = 1, port = 1, slots = [1, 2, 3, 4, 5, 6, 7, 8, 8] } }
10 at 1: { name = "b", kind = "odu0", from = { client = 1 }, to = { line = 1, port = 1, slots = [1, 2] } }
10 at 1: { name = "b", kind = "odu0", from = { line = 1, port = 1, slots = [1, 2] }, to = { client = 0 } }
10 at 1: { name = "b", kind = "flex", from = { line = 0, port = 1, slots = [2, 1] }, to = { client = 0 } }
10 at 1: { name = "b", kind = "flex", from = { line = 0, port = 1, slots = [1, 2] }, to = { line = 1, port = 1, slots = [1, 2, 3] } }
11 at 2: { name = "p", kind = "odu0", from = { client = 1 }, to = { line = 0, port = 1, slots = [4] }, stop = 5 }, { name = "q", kind = "odu0", from = { client = 2 }, to = { line = 0, port = 2, slots = [4] }, start = 5 }
accepted 2: { name = "p", kind = "odu0", from = { client = 1 }, to = { line = 0, port = 1, slots = [4] }, stop = 4 }, { name = "q", kind = "odu0", from = { client = 2 }, to = { line = 0, port = 2, slots = [4] }, start = 5 }
accepted 2: { name = "p", kind = "odu0", from = { client = 1 }, to = { line = 0, port = 1, slots = [4] }, stop = 4 }, { name = "q", kind = "odu0", from = { client = 2 }, to = { line = 0, port = 1, slots = [4] }, start = 5 }
accepted 2: { name = "p", kind = "odu0", from = { client = 1 }, to = { line = 0, port = 1, slots = [4] } }, { name = "q", kind = "odu0", from = { client = 2 }, to = { line = 1, port = 1, slots = [4] } }
11 at 2: { name = "p", kind = "odu0", from = { client = 1 }, to = { line = 0, port = 1, slots = [4] }, start = -3, stop = -2 }, { name = "q", kind = "odu0", from = { client = 2 }, to = { line = 0, port = 1, slots = [4] }, start = -2, stop = -2 }
15 at 1: { name = "p", kind = "odu0", from = { client = 1 }, to = { line = 0, port = 1, slots = [4] }, start = -3, stop = -4 }, { name = "q", kind = "odu0", from = { client = 2 }, to = { line = 0, port = 1, slots = [4] }, start = -4, stop = -4 }
12 at 2: { name = "p", kind = "odu0", from = { client = 1 }, to = { line = 0, port = 2, slots = [4] } }, { name = "q", kind = "odu0", from = { client = 2 }, to = { line = 0, port = 2, slots = [5] } }
accepted 2: { name = "p", kind = "flex", from = { line = 0, port = 1, slots = [1, 2] }, to = { line = 0, port = 2, slots = [1, 2] } }, { name = "q", kind = "flex", from = { line = 0, port = 1, slots = [1, 2] }, to = { line = 0, port = 3, slots = [3, 4] } }
13 at 2: { name = "p", kind = "odu0", from = { client = 1 }, to = { line = 0, port = 1, slots = [4] }, stop = 4 }, { name = "q", kind = "odu0", from = { client = 1 }, to = { line = 0, port = 2, slots = [5] }, start = 5 }
13 at 2: { name = "p", kind = "odu0", from = { line = 0, port = 1, slots = [4] }, to = { client = 3 } }, { name = "q", kind = "odu0", from = { line = 0, port = 1, slots = [4] }, to = { client = 3 } }
accepted 2: { name = "p", kind = "odu0", from = { line = 0, port = 1, slots = [4] }, to = { client = 3 } }, { name = "q", kind = "odu0", from = { client = 3 }, to = { line = 0, port = 2, slots = [5] } }
14 at 1: { name = "b", kind = "odu0", from = { client = 1 }, to = { line = 1, port = 1, slots = [3] }, pace = [15170] }
14 at 1: { name = "b", kind = "odu0", from = { client = 1 }, to = { line = 1, port = 1, slots = [3] }, pace = [15166] }
14 at 1: { name = "b", kind = "odu0", from = { client = 1 }, to = { line = 1, port = 1, slots = [3] }, pace = [15168, 15170] }
14 at 1: { name = "b", kind = "odu0", from = { client = 1 }, to = { line = 1, port = 1, slots = [3] }, pace = [] }
accepted 1: { name = "b", kind = "odu0", from = { client = 1 }, to = { line = 1, port = 1, slots = [3] }, pace = [15168, 15168, 15168, 15168, 15168, 15168, 15168, 15168, 15168, 15168, 15168, 15168, 15168, 15168, 15168, 15168, 15168, 15168, 15168, 15168, 15168, 15168, 15168, 15168, 15168, 15168, 15168, 15168, 15168, 15168, 15168, 15168, 15168, 15168, 15168, 15168, 15168, 15168, 15168, 15168, 15168, 15168, 15168, 15168, 15168, 15168, 15168, 15168, 15168, 15168, 15168, 15168, 15168, 15168, 15168, 15168, 15168, 15168, 15168, 15168, 15168, 15168, 15168, 15168] }
14 at 1: { name = "b", kind = "odu0", from = { client = 1 }, to = { line = 1, port = 1, slots = [3] }, pace = [15168, 15168, 15168, 15168, 15168, 15168, 15168, 15168, 15168, 15168, 15168, 15168, 15168, 15168, 15168, 15168, 15168, 15168, 15168, 15168, 15168, 15168, 15168, 15168, 15168, 15168, 15168, 15168, 15168, 15168, 15168, 15168, 15168, 15168, 15168, 15168, 15168, 15168, 15168, 15168, 15168, 15168, 15168, 15168, 15168, 15168, 15168, 15168, 15168, 15168, 15168, 15168, 15168, 15168, 15168, 15168, 15168, 15168, 15168, 15168, 15168, 15168, 15168, 15168, 15168] }
accepted 1: { name = "b", kind = "flex", from = { client = 1 }, to = { line = 1, port = 1, slots = [1, 2, 3] }, pace = [3, 45696] }
14 at 1: { name = "b", kind = "flex", from = { client = 1 }, to = { line = 1, port = 1, slots = [1, 2, 3] }, pace = [2] }
14 at 1: { name = "b", kind = "flex", from = { client = 1 }, to = { line = 1, port = 1, slots = [1, 2, 3] }, pace = [45697] }
14 at 1: { name = "b", kind = "flex", from = { client = 1 }, to = { line = 1, port = 1, slots = [3] }, pace = [4294967297] }
15 at 1: { name = "b", kind = "odu0", from = { client = 1 }, to = { line = 1, port = 1, slots = [3] }, start = 0 }
15 at 1: { name = "b", kind = "odu0", from = { client = 1 }, to = { line = 1, port = 1, slots = [3] }, start = 5, stop = 4 }
15 at 1: { name = "b", kind = "odu0", from = { client = 1 }, to = { line = 1, port = 1, slots = [3] }, stop = 9 }
15 at 1: { name = "b", kind = "odu0", from = { client = 1 }, to = { line = 1, port = 1, slots = [3] }, start = 9 }
15 at 1: { name = "b", kind = "odu0", from = { client = 1 }, to = { line = 1, port = 1, slots = [3] }, start = 4294967297 }
11 at 2: { name = "b", kind = "odu0", from = { client = 1 }, to = { line = 1, port = 1, slots = [3] }, start = 0 }, { name = "a", kind = "odu0", from = { client = 1 }, to = { line = 1, port = 1, slots = [3] }, pace = [1] }
2 at 2: { name = "A", kind = "odu0", from = { client = 1 }, to = { line = 1, port = 1, slots = [3] } }, { name = "A", kind = "odu0", from = { client = 2 }, to = { line = 2, port = 1, slots = [3] }, x = 1 }
9 at 2: { name = "b", kind = "flex", from = { client = 1 }, to = { line = 1, port = 1, slots = [] } }, { name = "d", kind = "odu0", from = { client = 77 }, to = { line = 2, port = 1, slots = [3] } }
14 at 2: { name = "p", kind = "odu0", from = { client = 1 }, to = { line = 1, port = 1, slots = [3] }, start = 0 }, { name = "q", kind = "odu0", from = { client = 2 }, to = { line = 2, port = 1, slots = [3] }, pace = [1] }
"#;

// The same where input line 1 and output line 0 are OTU3.
const WIDE_CONNECTIONS: &str = r#"
accepted 1: { name = "b", kind = "odu0", from = { client = 1 }, to = { line = 0, port = 20, slots = [17] } }
9 at 1: { name = "b", kind = "odu0", from = { client = 1 }, to = { line = 1, port = 20, slots = [17] } }
10 at 1: { name = "b", kind = "odu0", from = { client = 1 }, to = { line = 1, port = 8, slots = [17] } }
accepted 1: { name = "b", kind = "odu0", from = { line = 1, port = 20, slots = [17] }, to = { client = 1 } }
9 at 1: { name = "b", kind = "odu0", from = { line = 0, port = 20, slots = [17] }, to = { client = 1 } }
10 at 1: { name = "b", kind = "odu0", from = { line = 0, port = 8, slots = [17] }, to = { client = 1 } }
accepted 1: { name = "b", kind = "flex", from = { line = 1, port = 32, slots = [31, 32] }, to = { line = 1, port = 8, slots = [7, 8] } }
9 at 1: { name = "b", kind = "odu0", from = { client = 1 }, to = { line = 0, port = 33, slots = [17] } }
10 at 1: { name = "b", kind = "odu0", from = { client = 1 }, to = { line = 0, port = 32, slots = [33] } }
accepted 1: { name = "b", kind = "flex", from = { client = 1 }, to = { line = 0, port = 1, slots = [1, 2, 3, 4, 5, 6, 7, 8, 9, 10, 11, 12, 13, 14, 15, 16, 17, 18, 19, 20, 21, 22, 23, 24, 25, 26, 27, 28, 29, 30, 31, 32] }, pace = [32, 487424] }
14 at 1: { name = "b", kind = "flex", from = { client = 1 }, to = { line = 0, port = 1, slots = [1, 2, 3, 4, 5, 6, 7, 8, 9, 10, 11, 12, 13, 14, 15, 16, 17, 18, 19, 20, 21, 22, 23, 24, 25, 26, 27, 28, 29, 30, 31, 32] }, pace = [487425] }
11 at 2: { name = "p", kind = "odu0", from = { client = 1 }, to = { line = 0, port = 19, slots = [17] } }, { name = "q", kind = "odu0", from = { client = 2 }, to = { line = 0, port = 20, slots = [17] } }
"#;

fn answer(alloc: Global, text: &[u8]) -> Result<String, AllocError> {
    match Plan::read(alloc, text) {
        Ok(plan) => {
            let count = plan.connections.as_slice().len();
            format!(in alloc; "accepted {count}")
        }
        Err(NoPlan::Refused(error, place)) => {
            let code = error.code();
            format!(in alloc; "{code} at {place}")
        }
        Err(NoPlan::Memory) => format!(in alloc; "no memory"),
    }
}

fn judge_texts(rt: &impl Abort, alloc: Global, cases: &[(&str, &str)]) -> Result<(), AllocError> {
    for (wanted, text) in cases {
        let answer = answer(alloc, text.as_bytes())?;
        assert_eq!(rt; answer.as_str(), *wanted, "{text}");
    }
    Ok(())
}

fn judge_connections(
    rt: &impl Abort,
    alloc: Global,
    top: &str,
    cases: &str,
) -> Result<(), AllocError> {
    for case in cases.lines() {
        match case.split_once(": ") {
            Some((wanted, connections)) => {
                let text = format!(in alloc; "{top}turns = 8\nconnection = [{connections}]\n")?;
                let answer = answer(alloc, text.as_bytes())?;
                assert_eq!(rt; answer.as_str(), wanted, "{connections}");
            }
            None => assert!(rt; case.is_empty(), "{case}"),
        }
    }
    Ok(())
}

// A comment, and the number of turns: a text of so many bytes and ten more.
fn long_text(alloc: Global, length: usize) -> Result<Vec<u8>, AllocError> {
    let mut text = vec![in alloc; b'#'; length]?;
    text.extend_from_slice(
        b"
turns = 8",
    )?;
    Ok(text)
}

// So many connections of one name.
fn crowd(alloc: Global, count: u32) -> Result<String, AllocError> {
    let mut text = String::from_str(
        alloc,
        "turns = 8
connection = [",
    )?;
    for _ in 0..count {
        text.push_str(
            r#"{ name = "a", kind = "flex", from = { client = 0 }, to = { client = 0 } }, "#,
        )?;
    }
    text.push_str("]")?;
    Ok(text)
}

// A plan whose output line 3 is an OTU3: a connection from slot 3 of line 0 to slot 5 of line 3, which is
// said to be a slot of this kind of lines.
fn made(alloc: Global, kind: LineKind, retire: bool) -> Result<Option<Plan>, AllocError> {
    let (Some(from), Some(to), Some(trace)) = (
        Slots::new(&[3], LineKind::Otu2),
        Slots::new(&[5], kind),
        Trace::new(b""),
    ) else {
        return Ok(None);
    };
    let connection = Connection {
        name: Name::of(String::from_str(alloc, "a-7")?),
        kind: Kind::Odu0,
        from: FromEnd::Line(0, 1, from),
        to: ToEnd::Line(3, 32, to),
        pace: Pace::of(vec![in alloc; 15_167]?),
        fcs: true,
        trace,
        start: 2,
        stop: 8,
        retire,
    };
    Ok(Some(Plan {
        turns: 8,
        connections: Connections::of(vec![in alloc; connection]?),
        otu3_in: LineList::of(Vec::new(alloc)),
        otu3_out: LineList::of(vec![in alloc; 3]?),
        scrambled_in: LineList::of(Vec::new(alloc)),
        scrambled_out: LineList::of(vec![in alloc; 0, 3]?),
    }))
}

#[test]
fn judges_texts(rt: HostRuntime) -> Result<(), Fail> {
    judge_texts(&rt, rt.alloc(), &TEXTS)?;
    Ok(())
}

#[test]
fn judges_connections(rt: HostRuntime) -> Result<(), Fail> {
    judge_connections(&rt, rt.alloc(), "", CONNECTIONS)?;
    Ok(())
}

#[test]
fn judges_connections_of_wide_lines(rt: HostRuntime) -> Result<(), Fail> {
    let top = "version = 2\notu3-in = [1]\notu3-out = [0]\n";
    judge_connections(&rt, rt.alloc(), top, WIDE_CONNECTIONS)?;
    Ok(())
}

#[test]
fn judges_long_texts(rt: HostRuntime) -> Result<(), Fail> {
    let alloc = rt.alloc();
    assert_eq!(rt;
        answer(alloc, &long_text(alloc, 1_048_566)?)?.as_str(),
        "accepted 0"
    );
    assert_eq!(rt;
        answer(alloc, &long_text(alloc, 1_048_567)?)?.as_str(),
        "1 at 0"
    );
    assert_eq!(rt; answer(alloc, b"turns = 8 # \xFF")?.as_str(), "1 at 0");
    assert_eq!(rt;
        answer(alloc, crowd(alloc, 48)?.as_bytes())?.as_str(),
        "8 at 2"
    );
    assert_eq!(rt;
        answer(alloc, crowd(alloc, 49)?.as_bytes())?.as_str(),
        "6 at 0"
    );
    Ok(())
}

#[test]
fn judges_made_plans(rt: HostRuntime) -> Result<(), Fail> {
    let kept = made(rt.alloc(), LineKind::Otu3, false)?.ok_or("kept")?;
    assert_eq!(rt; kept.fault(), None);
    assert_eq!(rt; kept.connections.as_slice().len(), 1);
    assert_eq!(rt; kept.scrambled_out.as_slice(), [0, 3].as_slice());
    let retired = made(rt.alloc(), LineKind::Otu3, true)?.ok_or("retired")?;
    assert_eq!(rt; retired.fault(), Some((PlanError::BadSpan, 1)));
    let narrow = made(rt.alloc(), LineKind::Otu2, false)?.ok_or("narrow")?;
    assert_eq!(rt; narrow.fault(), Some((PlanError::BadSlots, 1)));
    Ok(())
}
