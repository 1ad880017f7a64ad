//! `otn`, a multiplexer and cross-connect for ODU0 and ODUflex: hands its words, the files of the current folder and
//! standard output to the one call that does all the work, and ends with the code of its answer.
#![tactic(auto)]

ghost use Rattle.std.specs.Prelude.{All};
ghost use Rattle.program_words.specs.Files.{IsInput, IsOutput};

use explain_command::explanation;
use line_tool::{Status, order_of, run};
use otn_base::Memory;
use otn_ports::{
    FileSink, FileSource, InPlaceOf, ListedSource, OutPlaceOf, Rack, ReadBlock, Sink, Source,
    StdoutSink,
};
use pages::text_of;
use pcap_packets::{PcapSink, PcapSource};
use program_words::{
    FileNumber, InputFile, InputPort, Opened, OutputFile, OutputPort, Page, exit_code, explained,
    given_words, input_files, made_output, number_of, opened_input, opens_files, output_files,
    page_of, plan_source, plan_text, reads_plan, status_of_page, take_standard,
};
use serving_order::ServingOrder;
use std::fs;
use std::fs::File;
use std::process::ExitCode;

mod pages;
mod serving_order;

fn main(rt: HostRuntime) -> ExitCode {
    let _standard = take_standard(&rt);
    let status = serve(&rt).unwrap_or(Status::Memory);
    if status != Status::Done {
        let _ = eprintln!(rt; "otn: {status}");
    }
    exit_code(&status)
}

// Writes the page that the words ask for, or explains words, and answers all others over files.
fn serve(rt: &HostRuntime) -> Result<Status, Memory> {
    let words = given_words(rt, rt.alloc())?;
    if let Some(page) = page_of(&words) {
        let text = text_of(page);
        return Ok(status_of_page(println!(rt; "{text}")));
    }
    match explained(&words) {
        Some(words) => {
            let text = explanation(rt, words, text_of(Page::Rules))?;
            Ok(status_of_page(print!(rt; "{text}")))
        }
        None => over_files(rt, &words),
    }
}

// The places of a device over files.
type FileBays = Rack<InputPort<FileSource>, OutputPort<FileSink>>;

// Reads the plan, where the words' command reads it. Where there is none to be carried no other file is opened or made.
// Else opens the inputs that the command reads, makes the outputs that it writes, and answers the words over them.
fn over_files(rt: &HostRuntime, words: &[String]) -> Result<Status, Memory> {
    let alloc = rt.alloc();
    let mut bays = Rack::new(alloc)?;
    let mut read = Vec::new(alloc);
    let text = given_plan(rt, words, &mut read)?;
    if opens_files(alloc, words, &text)? {
        open_inputs(rt, &input_files(alloc, words)?, &mut read, &mut bays)?;
        make_outputs(rt, &output_files(alloc, words)?, &read, &mut bays)?;
    }
    let mut plan = plan_source(alloc, text)?;
    Ok(answer(rt, words, &mut plan, &mut bays))
}

// The plan's text, where the words' command reads it: the first file that is opened, and one of those that are read.
fn given_plan(
    rt: &HostRuntime,
    words: &[String],
    read: &mut Vec<FileNumber>,
) -> Result<Option<Vec<u8>>, Memory> {
    if !reads_plan(words) {
        return Ok(None);
    }
    let Ok(file) = fs::open(rt, "plan.toml") else {
        return Ok(None);
    };
    note(read, &file)?;
    plan_text(rt.alloc(), &mut FileSource::of(Some(file)))
}

// Adds the file to those that are read.
fn note(read: &mut Vec<FileNumber>, file: &File) -> Result<(), Memory> {
    if let Some(number) = number_of(file) {
        read.push(number)?;
    }
    Ok(())
}

// Opens these files, each at its place.
fn open_inputs(
    rt: &HostRuntime,
    files: &[InputFile],
    read: &mut Vec<FileNumber>,
    bays: &mut FileBays,
) -> Result<(), Memory>
    requires { All IsInput files.now }
{
    for &file in files {
        if !is_spare(file, bays) {
            open_input(rt, file, read, bays)?;
        }
    }
    Ok(())
}

// Whether the file is a capture of a client that has a packet text.
fn is_spare(file: InputFile, bays: &FileBays) -> bool
    requires { IsInput file }
{
    match file {
        InputFile::Capture(n) => !matches!(bays.client_in(n), InPlaceOf::Empty),
        _ => false,
    }
}

// Opens this file at its place, where there is one.
fn open_input(
    rt: &HostRuntime,
    file: InputFile,
    read: &mut Vec<FileNumber>,
    bays: &mut FileBays,
) -> Result<(), Memory>
    requires { IsInput file }
{
    let alloc = rt.alloc();
    let Some(mut source) = input_file(rt, &file.name(alloc)?, read)? else {
        return Ok(());
    };
    match file {
        InputFile::Line(n) => {
            // a line is read by frames of 16,320 bytes
            source.read_by_blocks(alloc, ReadBlock::Frames);
            bays.set_line_in(n, InPlaceOf::Live(InputPort::Plain(source), 0));
        }
        InputFile::Text(n) => {
            // a text is read by pieces of 4,096 bytes
            source.read_by_blocks(alloc, ReadBlock::Text);
            bays.set_client_in(n, InPlaceOf::Live(InputPort::Plain(source), 0));
        }
        InputFile::Capture(n) => {
            let capture = PcapSource::new(alloc, source)?;
            bays.set_client_in(n, InPlaceOf::Live(InputPort::Capture(capture), 0));
        }
    }
    Ok(())
}

// Makes these files, each at its place. None is made in a file of those that are read.
fn make_outputs(
    rt: &HostRuntime,
    files: &[OutputFile],
    read: &[FileNumber],
    bays: &mut FileBays,
) -> Result<(), Memory>
    requires { All IsOutput files.now }
{
    for &file in files {
        make_output(rt, file, read, bays)?;
    }
    Ok(())
}

// Makes this file at its place. One that cannot be made fails at its first write.
fn make_output(
    rt: &HostRuntime,
    file: OutputFile,
    read: &[FileNumber],
    bays: &mut FileBays,
) -> Result<(), Memory>
    requires { IsOutput file }
{
    let alloc = rt.alloc();
    let name = file.name(alloc)?;
    let sink = FileSink::of(made_output(rt, name.as_str(), read));
    match file {
        OutputFile::Line(n) => bays.set_line_out(n, OutPlaceOf::Live(OutputPort::Plain(sink), 0)),
        OutputFile::Text(n) => bays.set_client_out(n, OutPlaceOf::Live(OutputPort::Plain(sink), 0)),
        OutputFile::Capture(n) => {
            let capture = PcapSink::new(alloc, sink)?;
            bays.set_client_out(n, OutPlaceOf::Live(OutputPort::Capture(capture), 0));
        }
    }
    Ok(())
}

// Answers the words over this plan, these places and standard output, in the order that the words say.
fn answer<I: Source, O: Sink>(
    rt: &HostRuntime,
    words: &[String],
    plan: &mut ListedSource,
    bays: &mut Rack<I, O>,
) -> Status {
    let mut order = ServingOrder::of(order_of(words));
    let mut report = StdoutSink::of(rt.stdout());
    run(rt.alloc(), words, plan, bays, &mut order, &mut report)
}

// The file of an input, which is then one of those that are read: None where there is none. One that cannot be opened
// fails at its first read.
fn input_file(
    rt: &HostRuntime,
    path: &String,
    read: &mut Vec<FileNumber>,
) -> Result<Option<FileSource>, Memory> {
    match opened_input(fs::open(rt, path.as_str())) {
        Opened::File(file) => {
            note(read, &file)?;
            Ok(Some(FileSource::of(Some(file))))
        }
        Opened::Refused => Ok(Some(FileSource::of(None))),
        Opened::Absent => Ok(None),
    }
}
