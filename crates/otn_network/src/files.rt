// The files of a node of a network that is run.
ghost use Rattle.std.specs.Prelude.{◌<◌};

use crate::marks::Marks;
use network_carry::{Outside, OutsideSink, begins_at, leads_to, near_end_at};
use network_file::FibreEnds;
use network_run::{NetIn, NetOut};
use otn_base::limits::{CLIENTS, LINES};
use otn_base::{Memory, PortName};
use otn_ports::{FileSink, FileSource, ReadBlock};
use plan_file::Plan;
use port_base::{InPlaceOf, OutPlaceOf, Rack};
use program_words::{InputFile, Opened, OutputFile, opened_input};
use std::fs;
use turn_pieces::uses;

/// What an input from outside reads: a file, or the far end of a fibre that is cut.
pub(crate) type RunSource = Outside<FileSource>;

/// What is written beside: the file of a line, or the near end of a fibre that is cut.
pub(crate) type RunSink = OutsideSink<FileSink>;

/// The places of a node: files, and the ends of fibres.
pub(crate) type NodePlaces = Rack<NetIn<RunSource>, NetOut<FileSink>>;

/// A node among the fibres, all of them and those that are not cut: its index, its plan, and its folder with the slash
/// behind it.
#[derive(Clone, Copy)]
pub(crate) struct Node<'a> {
    pub(crate) index: usize,
    pub(crate) plan: &'a Plan,
    pub(crate) folder: &'a str,
    pub(crate) fibres: &'a [FibreEnds],
    pub(crate) whole: &'a [FibreEnds],
}

// The path of a file in the folder of a node.
fn path_of(rt: &HostRuntime, folder: &str, name: &str) -> Result<String, Memory> {
    Ok(format!(in rt.alloc(); "{folder}{name}")?)
}

/// Marks all files of this folder that may be inputs of a node, and its plan.
pub(crate) fn mark_inputs(rt: &HostRuntime, folder: &str, marks: &mut Marks) -> Result<(), Memory> {
    marks.mark(rt, &path_of(rt, folder, "plan.toml")?)?;
    for n in 0..LINES as u8 {
        mark_input(rt, folder, InputFile::Line(n), marks)?;
    }
    for n in 0..CLIENTS as u8 {
        mark_input(rt, folder, InputFile::Text(n), marks)?;
        mark_input(rt, folder, InputFile::Capture(n), marks)?;
    }
    Ok(())
}

fn mark_input(
    rt: &HostRuntime,
    folder: &str,
    file: InputFile,
    marks: &mut Marks,
) -> Result<(), Memory> {
    let name = file.name(rt.alloc())?;
    marks.mark(rt, &path_of(rt, folder, name.as_str())?)
}

/// Opens the inputs that the plan uses, but for lines to which fibres lead.
pub(crate) fn open_inputs(
    rt: &HostRuntime,
    node: Node<'_>,
    bays: &mut NodePlaces,
) -> Result<(), Memory> {
    for n in 0..LINES as u8 {
        if uses(node.plan, PortName::LineIn(n)) && !leads_to(node.fibres, node.index, n) {
            let place = input(rt, node.folder, InputFile::Line(n), ReadBlock::Frames)?;
            bays.set_line_in(n, place);
        }
    }
    for n in 0..CLIENTS as u8 {
        if uses(node.plan, PortName::ClientIn(n)) {
            let place = input(rt, node.folder, InputFile::Text(n), ReadBlock::Text)?;
            bays.set_client_in(n, place);
        }
    }
    Ok(())
}

// The place of an input: empty where there is no such file. One that can't be opened fails at its first read.
fn input(
    rt: &HostRuntime,
    folder: &str,
    file: InputFile,
    block: ReadBlock,
) -> Result<InPlaceOf<NetIn<RunSource>>, Memory> {
    let name = file.name(rt.alloc())?;
    let path = path_of(rt, folder, name.as_str())?;
    let mut source = match opened_input(fs::open(rt, path.as_str())) {
        Opened::File(file) => FileSource::of(Some(file)),
        Opened::Refused => FileSource::of(None),
        Opened::Absent => return Ok(InPlaceOf::Empty),
    };
    source.read_by_blocks(rt.alloc(), block);
    Ok(InPlaceOf::Live(NetIn::Edge(Outside::Port(source)), 0))
}

/// Makes the outputs that the plan uses, but for lines at which fibres begin.
pub(crate) fn make_outputs(
    rt: &HostRuntime,
    node: Node<'_>,
    marks: &mut Marks,
    bays: &mut NodePlaces,
) -> Result<(), Memory> {
    for n in 0..LINES as u8 {
        if uses(node.plan, PortName::LineOut(n)) {
            make_line(rt, node, n, marks, bays)?;
        }
    }
    for n in 0..CLIENTS as u8 {
        if uses(node.plan, PortName::ClientOut(n)) {
            let sink = output(rt, node.folder, OutputFile::Text(n), marks)?;
            bays.set_client_out(n, OutPlaceOf::Live(NetOut::Edge(sink), 0));
        }
    }
    Ok(())
}

// A file, where no fibre begins. Where one does it is no place yet, but where all that do are cut: then it is their
// near end.
fn make_line(
    rt: &HostRuntime,
    node: Node<'_>,
    n: u8,
    marks: &mut Marks,
    bays: &mut NodePlaces,
) -> Result<(), Memory>
    requires few { n < 4 }
{
    if !begins_at(node.fibres, node.index, n) {
        let sink = output(rt, node.folder, OutputFile::Line(n), marks)?;
        bays.set_line_out(n, OutPlaceOf::Live(NetOut::Edge(sink), 0));
    } else if !begins_at(node.whole, node.index, n) {
        bays.set_line_out(n, near_end_at(rt.alloc(), node.plan, n)?);
    }
    Ok(())
}

/// The file of an output, made empty. One that can't be made, or is a file that is read or written besides, fails at
/// its first write.
pub(crate) fn output(
    rt: &HostRuntime,
    folder: &str,
    file: OutputFile,
    marks: &mut Marks,
) -> Result<FileSink, Memory> {
    let name = file.name(rt.alloc())?;
    let path = path_of(rt, folder, name.as_str())?;
    Ok(FileSink::of(marks.make(rt, path.as_str())?))
}
