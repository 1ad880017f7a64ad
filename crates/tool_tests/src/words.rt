// The words of the commands, and of no command.
use line_tool::{Command, command_of, order_of, takes_captures};
use otn_base::Memory;
use std::alloc::Global;
use std::test::Fail;

// The words that stand in this text, with one blank between two.
fn words_of(alloc: Global, text: &str) -> Result<Vec<String>, Memory> {
    let mut words = Vec::new(alloc);
    for word in text.split(' ') {
        words.push(String::from_str(alloc, word)?)?;
    }
    Ok(words)
}

#[test]
fn forms_of_run(rt: HostRuntime) -> Result<(), Fail> {
    for (text, command, order) in [
        ("run", Command::Run, None),
        ("run --order 0", Command::RunOrdered(0), Some(0)),
        ("run --order 007", Command::RunOrdered(7), Some(7)),
        (
            "run --order 00000000000000000042",
            Command::RunOrdered(42),
            Some(42),
        ),
        (
            "run --order 18446744073709551615",
            Command::RunOrdered(u64::MAX),
            Some(u64::MAX),
        ),
        ("run --pcap", Command::RunCaptures, None),
        ("trial 7", Command::Trial(7), None),
        ("check", Command::Check, None),
        ("slot 8", Command::Slot(8), None),
    ] {
        let words = words_of(rt.alloc(), text)?;
        assert_eq!(rt;
            (command_of(&words), order_of(&words), takes_captures(&words)),
            (Some(command), order, text == "run --pcap"),
            "{text}"
        );
    }
    Ok(())
}

#[test]
fn words_of_no_command(rt: HostRuntime) -> Result<(), Fail> {
    for text in [
        "",
        "Run",
        "trial",
        "trial x",
        "trial 1 2",
        "run ",
        "run extra",
        "run --order",
        "run --order ",
        "run --pcap ",
        "run --pcap --order 1",
        "run --order 1 --pcap",
        "run --order 18446744073709551616",
        "run --order 000000000000000000000",
        "run --order 000000000000000000042",
        "run --order 99999999999999999999",
        "run --order +1",
        "run --order -1",
        "run --order -0",
        "run --order 1x",
        "run --order 0x1",
        "run --order \u{0661}",
        "run --order 1 2",
        "run --Order 1",
        "run --order=1",
        "run 1",
        "order 1",
        "slot",
        "slot 9",
        "check 1",
        "check --order 1",
    ] {
        let words = words_of(rt.alloc(), text)?;
        assert_eq!(rt;
            (command_of(&words), order_of(&words)),
            (None, None),
            "{text}"
        );
    }
    Ok(())
}
