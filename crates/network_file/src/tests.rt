// Texts that a person might write, with what is said of each: the rule that is broken first, by its number, and its
// first place, or how many nodes and fibres there are, or which fibres are whole.
use crate::{NetworkError, NetworkFile, NoNetwork, Place, fault};
use plan_file::{Connections, LineList, NoPlan, Plan};
use std::alloc::{AllocError, Global};
use std::test::Fail;

// What is wanted, the nodes and the fibres.
const FILES: &str = r#"
1 at 0 | node = | []
1 at 0 | node = [] node = [] | []
2 at 0 | nodes = [{ name = 7 }] | []
3 at 0 |  | [7]
4 at 0 | node.name = "a" | []
2 at node 2 | node = [{ name = "a" }, { name = "b", line = 1 }] | []
2 at fibre 1 | node = [{ name = "a" }] | [{ from = { node = "a", line = 0 }, to = { node = "a", line = 0, port = 1 } }]
3 at node 1 | node = [{ folder = "a" }] | []
3 at fibre 1 | node = [{ name = "a" }] | [{ from = { node = "a", line = 0 }, to = { node = "a" } }]
3 at fibre 1 | node = [{ name = "a" }] | [{ from = { line = 0 }, to = 7 }]
4 at 0 | node = [{ name = "a" }, 7] | []
4 at node 1 | node = [{ name = "a", folder = 1 }] | []
4 at fibre 1 | node = [{ name = "a" }] | [{ from = "a", to = { node = "a", line = 0 } }]
4 at fibre 1 | node = [{ name = "a" }] | [{ from = { node = "a", line = "0" }, to = { node = "a", line = 0 } }]
5 at 0 | node = [] | []
6 at node 1 | node = [{ name = "A" }] | []
6 at node 2 | node = [{ name = "a", folder = "a/b-1.d" }, { name = "b", folder = "a/../b" }] | []
6 at node 1 | node = [{ name = "a", folder = "/a" }] | []
6 at node 1 | node = [{ name = "a", folder = "a/" }] | []
6 at node 1 | node = [{ name = "a", folder = "" }] | []
7 at node 3 | node = [{ name = "a" }, { name = "b" }, { name = "a", folder = "c" }] | []
8 at fibre 2 | node = [{ name = "a" }] | [{ from = { node = "a", line = 0 }, to = { node = "a", line = 9 } }, { from = { node = "a", line = 0 }, to = { node = "b", line = 0 } }]
9 at fibre 1 | node = [{ name = "a" }] | [{ from = { node = "a", line = 4 }, to = { node = "a", line = 0 } }]
9 at fibre 2 | node = [{ name = "a" }] | [{ from = { node = "a", line = 0 }, to = { node = "a", line = 3 } }, { from = { node = "a", line = 0 }, to = { node = "a", line = -1 } }]
10 at fibre 3 | node = [{ name = "a" }, { name = "b" }] | [{ from = { node = "a", line = 0 }, to = { node = "b", line = 0 } }, { from = { node = "a", line = 0 }, to = { node = "b", line = 1 } }, { from = { node = "b", line = 3 }, to = { node = "b", line = 0 } }]
nodes 2 fibres 2 | node = [{ name = "a" }, { name = "b" }] | [{ from = { node = "a", line = 0 }, to = { node = "b", line = 0 } }, { from = { node = "b", line = 0 }, to = { node = "a", line = 0 } }]
"#;

// What is wanted, and the cuts of a file of two fibres.
const CUTS: &str = r#"
2 at cut 2 | [{ fibre = 1, turns = [0, 1] }, { fibre = 1, turns = [0, 1], node = "a" }]
3 at cut 1 | [{ fibre = 1 }]
3 at cut 1 | [{ turns = [0, 1] }, { fibre = 9, turns = [0, 1] }]
4 at 0 | 7
4 at 0 | [7]
4 at cut 1 | [{ fibre = "1", turns = [0, 1] }]
4 at cut 1 | [{ fibre = 1, turns = 7 }]
4 at cut 1 | [{ fibre = 1, turns = [0, "1"] }]
13 at cut 1 | [{ fibre = 0, turns = [0, 1] }]
13 at cut 2 | [{ fibre = 2, turns = [5, 1] }, { fibre = 3, turns = [0, 1] }]
14 at cut 1 | [{ fibre = 1, turns = [1] }]
14 at cut 1 | [{ fibre = 1, turns = [1, 2, 3] }]
14 at cut 2 | [{ fibre = 1, turns = [1, 2] }, { fibre = 1, turns = [2, 2] }]
14 at cut 1 | [{ fibre = 1, turns = [-1, 2] }]
14 at cut 1 | [{ fibre = 1, turns = [1, 16385] }]
whole 0,1 | []
whole 1 | [{ fibre = 1, turns = [16383, 16384] }]
whole 0 | [{ fibre = 2, turns = [0, 1] }, { fibre = 2, turns = [7, 9] }]
whole | [{ fibre = 2, turns = [0, 1] }, { fibre = 1, turns = [7, 9] }]
"#;

// Of two nodes with a fibre from line 0 of the first to line 1 of the second: what is wanted, the top of the first
// plan, where the connection of the second comes from, and the top of the second.
const PLANS: &str = r#"
accepted | otu3-in = [] | { line = 1, port = 1, slots = [3] } | otu3-out = []
12 at fibre 1 | scrambled-out = [0] | { line = 1, port = 1, slots = [3] } | otu3-out = []
12 at fibre 1 | otu3-in = [] | { line = 1, port = 1, slots = [3] } | scrambled-in = [1]
accepted | scrambled-out = [0] | { line = 1, port = 1, slots = [3] } | scrambled-in = [0, 1]
12 at fibre 1 | otu3-out = [0] | { line = 1, port = 1, slots = [3] } | otu3-out = []
12 at fibre 1 | otu3-in = [] | { line = 1, port = 1, slots = [3] } | otu3-in = [1]
accepted | otu3-out = [0] | { line = 1, port = 1, slots = [3] } | otu3-in = [1]
accepted | otu3-out = [0] | { line = 2, port = 1, slots = [3] } | otu3-out = []
"#;

fn answer(alloc: Global, text: &[u8]) -> Result<String, AllocError> {
    match NetworkFile::read(alloc, text) {
        Ok(file) => {
            let nodes = file.nodes.as_slice().len();
            let fibres = file.fibres.as_slice().len();
            format!(in alloc; "nodes {nodes} fibres {fibres}")
        }
        Err(NoNetwork::Refused(error, place)) => {
            let code = error.code();
            format!(in alloc; "{code} at {place}")
        }
        Err(NoNetwork::Memory) => format!(in alloc; "no memory"),
    }
}

// The nodes from which the fibres lead that are whole, or the rule that is broken.
fn whole(alloc: Global, text: &[u8]) -> Result<String, AllocError> {
    let Ok(file) = NetworkFile::read(alloc, text) else {
        return answer(alloc, text);
    };
    let Ok(fibres) = file.whole_fibres(alloc) else {
        return format!(in alloc; "no memory");
    };
    match fibres.as_slice() {
        [] => format!(in alloc; "whole"),
        [one] => {
            let here = one.from_node();
            format!(in alloc; "whole {here}")
        }
        list => {
            let count = list.len();
            format!(in alloc; "whole 0,{}", count - 1)
        }
    }
}

fn told(alloc: Global, fault: Option<(NetworkError, Place)>) -> Result<String, AllocError> {
    match fault {
        Some((error, place)) => {
            let code = error.code();
            format!(in alloc; "{code} at {place}")
        }
        None => format!(in alloc; "accepted"),
    }
}

// A file of two nodes and the fibre between them.
fn pair(alloc: Global) -> Result<NetworkFile, NoNetwork> {
    let text = r#"
node = [{ name = "a" }, { name = "b" }]
fibre = [{ from = { node = "a", line = 0 }, to = { node = "b", line = 1 } }]
"#;
    NetworkFile::read(alloc, text.as_bytes())
}

// A plan of eight turns with this top and one connection between these ends.
fn plan(alloc: Global, top: &str, from: &str, to: &str) -> Result<Plan, NoPlan> {
    let text = format!(in alloc;
        "version = 2\nturns = 8\n{top}\n[[connection]]\nname = \"x\"\nkind = \"odu0\"\nfrom = {from}\nto = {to}\n"
    );
    match text {
        Ok(text) => Plan::read(alloc, text.as_bytes()),
        Err(_) => Err(NoPlan::Memory),
    }
}

#[test]
fn judges_files(rt: HostRuntime) -> Result<(), Fail> {
    let alloc = rt.alloc();
    for case in FILES.lines() {
        match case.split_once(" | ") {
            Some((wanted, rest)) => match rest.split_once(" | ") {
                Some((nodes, fibres)) => {
                    let text = format!(in alloc; "{nodes}\nfibre = {fibres}\n")?;
                    let answer = answer(alloc, text.as_bytes())?;
                    assert_eq!(rt; answer.as_str(), wanted, "{text}");
                }
                None => assert!(rt; false, "{case}"),
            },
            None => assert!(rt; case.is_empty(), "{case}"),
        }
    }
    Ok(())
}

#[test]
fn judges_cuts(rt: HostRuntime) -> Result<(), Fail> {
    let alloc = rt.alloc();
    let nodes = r#"node = [{ name = "a" }, { name = "b" }]"#;
    let one = r#"{ from = { node = "a", line = 0 }, to = { node = "b", line = 0 } }"#;
    let other = r#"{ from = { node = "b", line = 0 }, to = { node = "a", line = 0 } }"#;
    for case in CUTS.lines() {
        match case.split_once(" | ") {
            Some((wanted, cuts)) => {
                let text = format!(in alloc; "{nodes}\nfibre = [{one}, {other}]\ncut = {cuts}\n")?;
                let told = whole(alloc, text.as_bytes())?;
                assert_eq!(rt; told.as_str(), wanted, "{case}");
            }
            None => assert!(rt; case.is_empty(), "{case}"),
        }
    }
    Ok(())
}

#[test]
fn judges_plans(rt: HostRuntime) -> Result<(), Fail> {
    let alloc = rt.alloc();
    let file = pair(alloc).ok().ok_or("file")?;
    for case in PLANS.lines() {
        let mut parts = case.split(" | ");
        match (parts.next(), parts.next(), parts.next(), parts.next()) {
            (Some(wanted), Some(top), Some(from), Some(next_top)) => {
                let to = "{ line = 0, port = 1, slots = [3] }";
                let here = plan(alloc, top, "{ client = 0 }", to).ok().ok_or("here")?;
                let there = plan(alloc, next_top, from, "{ client = 0 }")
                    .ok()
                    .ok_or("there")?;
                let plans = vec![in alloc; here, there]?;
                let told = told(alloc, fault(&file, plans.as_slice()))?;
                assert_eq!(rt; told.as_str(), wanted, "{case}");
            }
            _ => assert!(rt; case.is_empty(), "{case}"),
        }
    }
    Ok(())
}

// A plan without turns.
fn refused(alloc: Global) -> Plan {
    Plan {
        turns: 0,
        connections: Connections::of(Vec::new(alloc)),
        otu3_in: LineList::of(Vec::new(alloc)),
        otu3_out: LineList::of(Vec::new(alloc)),
        scrambled_in: LineList::of(Vec::new(alloc)),
        scrambled_out: LineList::of(Vec::new(alloc)),
    }
}

#[test]
fn judges_refused_plans(rt: HostRuntime) -> Result<(), Fail> {
    let alloc = rt.alloc();
    let file = pair(alloc).ok().ok_or("file")?;
    let to = "{ line = 0, port = 1, slots = [3] }";
    let here = plan(alloc, "scrambled-out = [0]", "{ client = 0 }", to)
        .ok()
        .ok_or("here")?;
    let plans = vec![in alloc; here, refused(alloc)]?;
    let told = told(alloc, fault(&file, plans.as_slice()))?;
    assert_eq!(rt; told.as_str(), "11 at node 2");
    Ok(())
}
