// The files that a command makes.
ghost use Rattle.std.specs.Prelude.{All};
ghost use Rattle.program_words.specs.Files.{IsInput, IsOutput};

use crate::folder::{State, state_of};
use crate::inputs::run_words;
use crate::plan::Known;
use command_words::takes_captures;
use otn_base::Memory;
use plan_file::{Plan, ToEnd};
use program_words::{FileNumber, InputFile, OutputFile, input_files, output_files};

/// Says which files the words' command makes, and which are there already.
pub(crate) fn explain(
    rt: &HostRuntime,
    words: &[String],
    plan: &Known,
    page: &mut String,
) -> Result<(), Memory> {
    let alloc = rt.alloc();
    let words = run_words(alloc, words)?;
    let files = output_files(alloc, &words)?;
    if files.is_empty() {
        return Ok(());
    }
    writeln!(page, "outputs")?;
    if matches!(plan, Known::None) {
        writeln!(
            page,
            "  no file is made or changed without an accepted plan"
        )?;
        return Ok(());
    }
    let read = numbers(rt, &input_files(alloc, &words)?)?;
    each(rt, &files, plan, &read, page)?;
    let count = files.len();
    writeln!(page, "  all {count} are made, used or not")?;
    if takes_captures(&words) {
        writeln!(page, "  times in captures that are written are 0")?;
    }
    Ok(())
}

// Which files of the system the inputs are.
fn numbers(rt: &HostRuntime, files: &[InputFile]) -> Result<Vec<FileNumber>, Memory>
    requires { All IsInput files.now }
{
    let alloc = rt.alloc();
    let mut read = Vec::new(alloc);
    add_number(rt, "plan.toml", &mut read)?;
    for &file in files {
        let name = file.name(alloc)?;
        add_number(rt, name.as_str(), &mut read)?;
    }
    Ok(read)
}

fn add_number(rt: &HostRuntime, name: &str, read: &mut Vec<FileNumber>) -> Result<(), Memory> {
    if let State::File(_, Some(number)) = state_of(rt, name) {
        read.push(number)?;
    }
    Ok(())
}

fn each(
    rt: &HostRuntime,
    files: &[OutputFile],
    plan: &Known,
    read: &[FileNumber],
    page: &mut String,
) -> Result<(), Memory>
    requires { All IsOutput files.now }
{
    for &file in files {
        one(rt, file, plan, read, page)?;
    }
    Ok(())
}

fn one(
    rt: &HostRuntime,
    file: OutputFile,
    plan: &Known,
    read: &[FileNumber],
    page: &mut String,
) -> Result<(), Memory>
    requires { IsOutput file }
{
    let name = file.name(rt.alloc())?;
    let used = if is_used(file, plan) {
        ""
    } else {
        ", to which nothing goes"
    };
    match state_of(rt, name.as_str()) {
        State::Absent if used.is_empty() => writeln!(page, "  {name} is made")?,
        State::Absent => {}
        State::File(_, Some(number)) if is_read(read, number) => {
            writeln!(
                page,
                "  {name} is the same file as an input: it is left as it is, and a write to it fails"
            )?;
        }
        State::File(length, _) => {
            writeln!(page, "  {name}{used} is there, and its {length} bytes go")?;
        }
        _ => writeln!(page, "  {name}{used} is there, and is no regular file")?,
    }
    Ok(())
}

fn is_read(read: &[FileNumber], number: FileNumber) -> bool {
    read.iter().any(|&one| one == number)
}

// Whether something goes to the file: of a run, where a connection does.
fn is_used(file: OutputFile, plan: &Known) -> bool {
    match plan {
        Known::Plan(plan) => is_of(plan, file),
        _ => true,
    }
}

fn is_of(plan: &Plan, file: OutputFile) -> bool {
    plan.connections
        .as_slice()
        .iter()
        .any(|connection| is_to(&connection.to, file))
}

fn is_to(to: &ToEnd, file: OutputFile) -> bool {
    match (to, file) {
        (ToEnd::Line(n, ..), OutputFile::Line(m)) => *n == m,
        (ToEnd::Client(n), OutputFile::Text(m) | OutputFile::Capture(m)) => *n == m,
        _ => false,
    }
}
