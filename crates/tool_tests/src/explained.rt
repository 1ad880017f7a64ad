// What is explained: a plan that is refused, inputs, and words.
use explain_command::explanation;
use input_reasons::{TextEnd, look_at_capture, look_at_text, reason_of_line};
use plan_reasons::refusal_of;
use port_base::MemSource;
use std::test::Fail;

const SLOTS_FALL: &str = r#"turns = 16
connection = [
  { name = "north", kind = "odu0", from = { client = 0 }, to = { line = 0, port = 1, slots = [1] } },
  { name = "south", kind = "flex", from = { client = 1 }, to = { line = 0, port = 2, slots = [8, 2] } },
]
"#;

#[test]
fn a_plan_that_is_refused(rt: HostRuntime) -> Result<(), Fail> {
    let refusal = refusal_of(rt.alloc(), SLOTS_FALL.as_bytes())?.ok_or("accepted")?;
    assert_eq!(rt; (refusal.rule.code(), refusal.place), (10, 2));
    assert_eq!(rt;
        (refusal.at.as_str(), refusal.reason.as_str()),
        (
            "connection 2 (south)",
            "to: slots = [8, 2] do not rise; write [2, 8]"
        )
    );
    Ok(())
}

#[test]
fn inputs_that_are_none(rt: HostRuntime) -> Result<(), Fail> {
    let alloc = rt.alloc();
    let text = b"aabb\naab\nccdd\n";
    let look = look_at_text(alloc, MemSource::new(Vec::from_slice(alloc, text)?))?;
    assert_eq!(rt; (look.packets.count, look.end), (1, TextEnd::Bad(2)));
    let mut source = MemSource::new(Vec::from_slice(alloc, text)?);
    let reason = reason_of_line(alloc, &mut source, 2)?;
    let wanted = "it has 3 digits, an odd number, and a byte has two";
    assert_eq!(rt; reason.as_str(), wanted);
    let mut source = MemSource::new(Vec::from_slice(alloc, b"\x0A\x0D\x0D\x0A")?);
    assert!(rt; look_at_capture(alloc, &mut source)?.fault.is_some());
    Ok(())
}

#[test]
fn words_that_are_nearly_a_command(rt: HostRuntime) -> Result<(), Fail> {
    let mut words = Vec::new(rt.alloc());
    for word in ["pull", "1", "1,", "2"] {
        words.push(String::from_str(rt.alloc(), word)?)?;
    }
    let page = explanation(&rt, &words, "")?;
    assert!(rt; page.contains("  a list has commas and no blank: write otn pull 1 1,2\n"));
    Ok(())
}
