// What is told of a network that was run, and the words of `otn_network run`.
use crate::run_words::{RunAsked, behind_run, fibres_named, run_asked};
use crate::summary::{Ending, last_lines, node_line, worse};
use device_model::Outcome;
use std::alloc::{AllocError, Global};
use std::test::Fail;

#[test]
fn what_is_told_beside_the_reports(rt: HostRuntime) -> Result<(), Fail> {
    let line = node_line(rt.alloc(), "nord")?;
    assert_eq!(rt; line.as_str(), "node nord\n");
    let ending = Ending {
        nodes: 6,
        fibres: 12,
        whole: 11,
        outcome: worse(worse(Outcome::Done, Outcome::Cut), Outcome::Unfinished),
    };
    let last = last_lines(rt.alloc(), ending)?;
    let wanted = "network nodes 6 fibres 12 whole 11\nnetwork cut\n";
    assert_eq!(rt; last.as_str(), wanted);
    assert_eq!(rt;
        worse(Outcome::Unfinished, Outcome::Done),
        Outcome::Unfinished
    );
    assert_eq!(rt; worse(Outcome::Done, Outcome::Done), Outcome::Done);
    Ok(())
}

#[test]
fn fibres_that_are_named(rt: HostRuntime) -> Result<(), Fail> {
    let alloc = rt.alloc();
    let some = fibres_named(alloc, Some("3,1"), 3)?.ok_or("refused")?;
    assert_eq!(rt; some.as_slice(), [true, false, true].as_slice());
    let all = fibres_named(alloc, Some("all"), 2)?.ok_or("refused")?;
    assert_eq!(rt; all.as_slice(), [true, true].as_slice());
    let none = fibres_named(alloc, None, 1)?.ok_or("refused")?;
    assert_eq!(rt; none.as_slice(), [false].as_slice());
    for list in ["0", "4", "", "1,", "1 2", "x", "all,1", "-1"] {
        assert!(rt; fibres_named(alloc, Some(list), 3)?.is_none());
    }
    Ok(())
}

#[test]
fn words_of_a_run(rt: HostRuntime) -> Result<(), Fail> {
    let alloc = rt.alloc();
    let words = words_of(alloc, ["run", "ring.toml", "--lines", "all"].as_slice())?;
    let rest = behind_run(words.as_slice()).ok_or("no run")?;
    match run_asked(rest) {
        RunAsked::Run(path, list) => {
            assert_eq!(rt; path, "ring.toml");
            assert_eq!(rt; list, Some("all"));
        }
        RunAsked::Nothing => assert!(rt; false),
    }
    assert!(rt; behind_run(rest).is_none());
    let short = words_of(alloc, ["ring.toml", "--lines"].as_slice())?;
    assert!(rt; matches!(run_asked(short.as_slice()), RunAsked::Nothing));
    Ok(())
}

fn words_of(alloc: Global, list: &[&str]) -> Result<Vec<String>, AllocError> {
    let mut words = Vec::new(alloc);
    for word in list {
        words.push(String::from_str(alloc, word)?)?;
    }
    Ok(words)
}
