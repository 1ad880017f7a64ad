// The files that a command reads.
ghost use Rattle.std.specs.Prelude.{All};
ghost use Rattle.program_words.specs.Files.{IsInput};

use crate::folder::{State, source_of, state_of};
use crate::plan::Known;
use crate::turns;
use input_reasons::{
    CaptureLook, LineLook, TextEnd, TextLook, look_at_capture, look_at_line, look_at_text,
    reason_of_line,
};
use otn_base::Memory;
use plan_file::{FromEnd, Plan};
use program_words::{InputFile, input_files};
use std::alloc::Global;

/// Bytes of a frame of a line.
const FRAME: u64 = 16_320;

/// The words of a run, for which no word stands.
pub(crate) fn run_words(alloc: Global, words: &[String]) -> Result<Vec<String>, Memory> {
    let mut run = Vec::new(alloc);
    if words.is_empty() {
        run.push(String::from_str(alloc, "run")?)?;
    }
    for word in words {
        run.push(String::from_str(alloc, word.as_str())?)?;
    }
    Ok(run)
}

/// Says what stands in the files that the words' command reads.
pub(crate) fn explain(
    rt: &HostRuntime,
    words: &[String],
    plan: &Known,
    page: &mut String,
) -> Result<(), Memory> {
    let alloc = rt.alloc();
    let words = run_words(alloc, words)?;
    let files = input_files(alloc, &words)?;
    if files.is_empty() {
        return Ok(());
    }
    writeln!(page, "inputs")?;
    let before = page.len();
    each(rt, &files, plan, page)?;
    if page.len() == before {
        writeln!(page, "  none is there")?;
    }
    Ok(())
}

fn each(
    rt: &HostRuntime,
    files: &[InputFile],
    plan: &Known,
    page: &mut String,
) -> Result<(), Memory>
    requires { All IsInput files.now }
{
    for &file in files {
        one(rt, file, plan, page)?;
    }
    Ok(())
}

fn one(rt: &HostRuntime, file: InputFile, plan: &Known, page: &mut String) -> Result<(), Memory>
    requires { IsInput file }
{
    let name = file.name(rt.alloc())?;
    let name = name.as_str();
    let is_used = is_used(file, plan);
    match state_of(rt, name) {
        State::Absent => absent(rt, file, name, is_used, page),
        State::File(length, _) if is_used => there(rt, file, name, length, plan, page),
        State::File(length, _) => {
            writeln!(
                page,
                "  {name}, {length} bytes: no connection of an accepted plan reads it"
            )?;
            Ok(())
        }
        State::Folder => {
            writeln!(page, "  {name} is a folder: a read of it fails")?;
            Ok(())
        }
        State::Other => {
            writeln!(page, "  {name} is a pipe or a device: it is not looked at")?;
            Ok(())
        }
        State::Refused => {
            writeln!(page, "  {name} can't be opened: a read of it fails")?;
            Ok(())
        }
    }
}

// Whether the command looks at the file: a run where a connection is from it.
fn is_used(file: InputFile, plan: &Known) -> bool {
    match plan {
        Known::Unread => true,
        Known::None => false,
        Known::Plan(plan) => plan
            .connections
            .as_slice()
            .iter()
            .any(|connection| is_from(&connection.from, file)),
    }
}

fn is_from(from: &FromEnd, file: InputFile) -> bool {
    match (from, file) {
        (FromEnd::Line(n, ..), InputFile::Line(m)) => *n == m,
        (FromEnd::Client(n), InputFile::Text(m) | InputFile::Capture(m)) => *n == m,
        _ => false,
    }
}

// Says what a file that is not there comes to, where it is used. Of a client the text alone says it.
fn absent(
    rt: &HostRuntime,
    file: InputFile,
    name: &str,
    is_used: bool,
    page: &mut String,
) -> Result<(), Memory> {
    match file {
        InputFile::Line(n) if is_used => {
            writeln!(page, "  {name} is not there: it is a line that has ended")?;
            other_side(rt, n, page)
        }
        InputFile::Text(_) if is_used => {
            writeln!(
                page,
                "  {name} is not there: a client without packets, unless a capture of it is read"
            )?;
            Ok(())
        }
        _ => Ok(()),
    }
}

// Says where a line of another node may be, for want of a line input.
fn other_side(rt: &HostRuntime, n: u8, page: &mut String) -> Result<(), Memory> {
    let name = format!(in rt.alloc(); "line-{n}.out")?;
    if let State::File(length, _) = state_of(rt, name.as_str()) {
        writeln!(
            page,
            "    {name}, {length} bytes, is what this node sends: a line input is the line output of another node"
        )?;
    }
    Ok(())
}

fn there(
    rt: &HostRuntime,
    file: InputFile,
    name: &str,
    length: u64,
    plan: &Known,
    page: &mut String,
) -> Result<(), Memory> {
    match file {
        InputFile::Line(n) => {
            let look = look_at_line(rt.alloc(), &mut source_of(rt, name))?;
            line(&look, name, length, is_scrambled(n, plan), page)
        }
        InputFile::Text(n) => {
            let look = look_at_text(rt.alloc(), source_of(rt, name))?;
            text(rt, &look, name, length, page)?;
            wants(n, plan, look.packets, page)
        }
        InputFile::Capture(n) => capture_there(rt, n, name, length, plan, page),
    }
}

// Says what turns the packets of this client want.
fn wants(
    client: u8,
    plan: &Known,
    packets: input_reasons::Packets,
    page: &mut String,
) -> Result<(), Memory> {
    let Known::Plan(plan) = plan else {
        return Ok(());
    };
    match turns::connection_from(plan, client) {
        Some(connection) => turns::explain(connection, packets, page),
        None => Ok(()),
    }
}

fn capture_there(
    rt: &HostRuntime,
    client: u8,
    name: &str,
    length: u64,
    plan: &Known,
    page: &mut String,
) -> Result<(), Memory> {
    let tens = client / 10;
    let units = client % 10;
    let text_name = format!(in rt.alloc(); "client-{tens}{units}.in")?;
    if !matches!(state_of(rt, text_name.as_str()), State::Absent) {
        writeln!(page, "  {name} is not read, since {text_name} is there")?;
        return Ok(());
    }
    let look = look_at_capture(rt.alloc(), &mut source_of(rt, name))?;
    capture(&look, name, length, page)?;
    wants(client, plan, look.packets, page)
}

// Whether the plan says that this line input is scrambled. None without a plan.
fn is_scrambled(n: u8, plan: &Known) -> Option<bool> {
    match plan {
        Known::Plan(plan) => Some(lists(plan.scrambled_in.as_slice(), n)),
        _ => None,
    }
}

fn lists(lines: &[u8], n: u8) -> bool {
    lines.iter().any(|&line| line == n)
}

fn line(
    look: &LineLook,
    name: &str,
    length: u64,
    is_scrambled: Option<bool>,
    page: &mut String,
) -> Result<(), Memory> {
    let frames = length / FRAME;
    let rest = length % FRAME;
    writeln!(
        page,
        "  {name}, {length} bytes: {frames} whole frames and {rest} bytes over"
    )?;
    alignment(look, name, page)?;
    match is_scrambled {
        Some(true) if look.counts_up() => {
            writeln!(
                page,
                "    the MFAS counts up: it looks plain, and the plan has the line in scrambled-in"
            )?;
        }
        Some(true) => {}
        Some(false) if look.counts_down() => {
            writeln!(
                page,
                "    the MFAS counts down: it looks scrambled; the plan says so by version = 2 and scrambled-in"
            )?;
        }
        _ if look.counts_down() => {
            writeln!(
                page,
                "    the MFAS counts down: it looks scrambled, and plain lines are read here"
            )?;
        }
        _ => {}
    }
    Ok(())
}

// Says what the first frames of a line begin with.
fn alignment(look: &LineLook, name: &str, page: &mut String) -> Result<(), Memory> {
    let aligned = look.aligned;
    let frames = look.frames;
    if frames == 0 {
        writeln!(page, "    it has no whole frame, of 16320 bytes")?;
        return Ok(());
    }
    if !look.is_no_line() {
        writeln!(
            page,
            "    {aligned} of the first {frames} frames begin with the FAS"
        )?;
        return Ok(());
    }
    writeln!(
        page,
        "    {aligned} of the first {frames} frames begin with the FAS, f6 f6 f6 28 28 28: it does not look like a line"
    )?;
    match look.found {
        Some(found) if found > 0 => {
            let from = found.saturating_add(1);
            writeln!(
                page,
                "    a FAS stands at byte {found}: tail -c +{from} {name} begins there"
            )?;
        }
        _ => {}
    }
    Ok(())
}

fn text(
    rt: &HostRuntime,
    look: &TextLook,
    name: &str,
    length: u64,
    page: &mut String,
) -> Result<(), Memory> {
    let packets = look.packets.count;
    writeln!(page, "  {name}, {length} bytes: {packets} packets")?;
    match look.end {
        TextEnd::Bad(line) => {
            let reason = reason_of_line(rt.alloc(), &mut source_of(rt, name), line)?;
            writeln!(
                page,
                "    line {line} is no packet, and nothing behind it is read: {reason}"
            )?;
        }
        TextEnd::Failed => writeln!(page, "    a read of it failed")?,
        TextEnd::Whole => {}
    }
    Ok(())
}

fn capture(look: &CaptureLook, name: &str, length: u64, page: &mut String) -> Result<(), Memory> {
    let packets = look.packets.count;
    let cut = look.cut;
    writeln!(
        page,
        "  {name}, {length} bytes: {packets} packets, at times that are not read"
    )?;
    if cut > 0 {
        writeln!(
            page,
            "    {cut} of them are cut by the snap length, and are carried so; tcpdump -s 0 takes them whole"
        )?;
    }
    if let Some(fault) = &look.fault {
        writeln!(page, "    {fault}; nothing behind it is read")?;
    }
    Ok(())
}
