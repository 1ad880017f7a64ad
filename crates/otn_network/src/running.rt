// A network, run over the files of its nodes.
ghost use Rattle.std.specs.Prelude.{◌≡◌, ◌<◌, IfOk, None, length};
ghost use Rattle.plan_file.specs.Answer.{fault_in};

use crate::answer::Answer;
use crate::cuts::put_cut_ends;
use crate::files::{
    Node, NodePlaces, RunSink, RunSource, make_outputs, mark_inputs, open_inputs, output,
};
use crate::marks::{Marks, one_folder};
use crate::reading::{Joined, Read, base_of, read_all};
use crate::run_words::fibres_named;
use crate::sites::{Ran, run_sites};
use crate::summary::{Ending, last_lines, node_line, worse};
use arrayvec::ArrayString;
use device_model::{Outcome, RunNumbers};
use network_carry::{Carried, OutsideSink, Recording};
use network_file::FibreEnds;
use network_run::Site;
use otn_base::Memory;
use otn_ports::{FileSink, StdoutSink};
use plan_file::Plan;
use port_base::{OutPlaceOf, Rack, Written, is_dead_out, write_whole};
use program_words::OutputFile;
use run_report::put_report;

type Recordings = Vec<Recording<RunSink>>;

/// Runs the network of this file, and writes the lines of the fibres that the list names, if any.
pub(crate) fn run_file(rt: &HostRuntime, path: &str, list: Option<&str>) -> Result<Answer, Memory> {
    match read_all(rt, path)? {
        Read::Refused(answer) => Ok(answer),
        Read::Accepted(joined) => run_joined(rt, path, list, &joined),
    }
}

// Before any file is made it is seen to that the list names fibres, and that no two nodes have one folder.
fn run_joined(
    rt: &HostRuntime,
    path: &str,
    list: Option<&str>,
    joined: &Joined,
) -> Result<Answer, Memory> {
    let fibres = joined.file.fibres.as_slice();
    let Some(named) = fibres_named(rt.alloc(), list, fibres.len())? else {
        return Ok(Answer::Words);
    };
    let folders = folders_of(rt, base_of(path), joined)?;
    if let Some((one, other)) = one_folder(rt, folders.as_slice())? {
        return Ok(Answer::OneFolder(one, other));
    }
    let whole = joined.file.whole_fibres(rt.alloc())?;
    let mut marks = marks_of(rt, path, folders.as_slice())?;
    let mut places = open_all(rt, folders.as_slice(), joined, whole.as_slice(), &mut marks)?;
    let mut recordings = record(rt, folders.as_slice(), fibres, named.as_slice(), &mut marks)?;
    put_cut_ends(rt.alloc(), joined, &mut places, &mut recordings)?;
    let ran = run_sites(
        rt.alloc(),
        joined,
        whole.as_slice(),
        places,
        &mut recordings,
    )?;
    tell(rt, joined, &ran, recordings.as_slice())
}

// The folder of each node, with the slash behind it.
fn folders_of(rt: &HostRuntime, base: &str, joined: &Joined) -> Result<Vec<String>, Memory>
    ensures { IfOk result (λ folders. length folders.items ≡ length joined.now.file.nodes) }
{
    let nodes = joined.file.nodes.as_slice();
    let mut folders = Vec::new(rt.alloc());
    for i in 0..nodes.len() {
        let folder = nodes[i].folder.as_str();
        folders.push(format!(in rt.alloc(); "{base}{folder}/")?)?;
    }
    Ok(folders)
}

// All files that are read, or may be inputs: that of the network, and those in the folders of its nodes.
fn marks_of(rt: &HostRuntime, path: &str, folders: &[String]) -> Result<Marks, Memory> {
    let mut marks = Marks::new(rt.alloc());
    marks.mark(rt, path)?;
    for i in 0..folders.len() {
        mark_inputs(rt, folders[i].as_str(), &mut marks)?;
    }
    Ok(marks)
}

// The places of all nodes, over their files.
fn open_all(
    rt: &HostRuntime,
    folders: &[String],
    joined: &Joined,
    whole: &[FibreEnds],
    marks: &mut Marks,
) -> Result<Vec<NodePlaces>, Memory>
    requires each { length folders.now ≡ length joined.now.plans.items }
    ensures { IfOk result (λ places. length places.items ≡ length joined.now.plans.items) }
{
    let mut places = Vec::new(rt.alloc());
    for index in 0..folders.len() {
        let node = Node {
            index,
            plan: joined.plan(index),
            folder: folders[index].as_str(),
            fibres: joined.file.fibres.as_slice(),
            whole,
        };
        places.push(open_node(rt, node, marks)?)?;
    }
    Ok(places)
}

fn open_node(rt: &HostRuntime, node: Node<'_>, marks: &mut Marks) -> Result<NodePlaces, Memory> {
    let mut bays = Rack::new(rt.alloc())?;
    open_inputs(rt, node, &mut bays)?;
    make_outputs(rt, node, marks, &mut bays)?;
    Ok(bays)
}

// The files of the lines of the fibres that are named, one for each line.
fn record(
    rt: &HostRuntime,
    folders: &[String],
    fibres: &[FibreEnds],
    named: &[bool],
    marks: &mut Marks,
) -> Result<Recordings, Memory> {
    let mut recordings = Vec::new(rt.alloc());
    for i in 0..fibres.len() {
        if is_first_named(fibres, named, i) {
            let node = fibres[i].from_node();
            let line = fibres[i].from_line();
            if let Some(folder) = folders.get(node) {
                let sink = output(rt, folder.as_str(), OutputFile::Line(line), marks)?;
                let place = OutPlaceOf::Live(OutsideSink::Port(sink), 0);
                recordings.push(Recording::new(node, line, place))?;
            }
        }
    }
    Ok(recordings)
}

// Whether fibre i is named, and is the first such that begins at its line.
fn is_first_named(fibres: &[FibreEnds], named: &[bool], i: usize) -> bool
    requires { i < length fibres.now }
{
    if named.get(i) != Some(&true) {
        return false;
    }
    for j in 0..i {
        if named.get(j) == Some(&true) && is_one_line(&fibres[j], &fibres[i]) {
            return false;
        }
    }
    true
}

fn is_one_line(one: &FibreEnds, other: &FibreEnds) -> bool {
    one.from_node() == other.from_node() && one.from_line() == other.from_line()
}

// ---- what is told

// Writes the report of each node behind its name, and how the network ended.
fn tell(
    rt: &HostRuntime,
    joined: &Joined,
    ran: &Ran<RunSource, FileSink>,
    recordings: &[Recording<RunSink>],
) -> Result<Answer, Memory>
    requires sites { length ran.now.sites.items ≡ length joined.now.plans.items }
    requires numbers { length ran.now.carried.numbers.items ≡ length joined.now.plans.items }
{
    let mut report = StdoutSink::of(rt.stdout());
    let mut outcome = outcome_of(recordings);
    let nodes = joined.file.nodes.as_slice();
    for i in 0..nodes.len() {
        let numbers = &ran.carried.numbers[i];
        let name = nodes[i].name.as_str();
        let site = &ran.sites[i];
        if tell_node(rt, name, joined.plan(i), numbers, site, &mut report)? == Written::Lost {
            return Ok(Answer::ReportFault);
        }
        outcome = worse(outcome, numbers.outcome);
    }
    let last = last_lines(rt.alloc(), ending_of(joined, &ran.carried, outcome))?;
    Ok(match write_whole(&mut report, last.as_bytes()) {
        Written::Whole => Answer::Ran(outcome),
        Written::Lost => Answer::ReportFault,
    })
}

// Writes the name of a node and its report.
fn tell_node(
    rt: &HostRuntime,
    name: &str,
    plan: &Plan,
    numbers: &RunNumbers,
    site: &Site<RunSource, FileSink>,
    report: &mut StdoutSink,
) -> Result<Written, Memory>
    requires accepted { fault_in plan.now ≡ None }
{
    let head = node_line(rt.alloc(), name)?;
    let mut text = ArrayString::new();
    put_report(&mut text, plan, numbers, &site.bays);
    if write_whole(report, head.as_bytes()) == Written::Lost {
        return Ok(Written::Lost);
    }
    Ok(write_whole(report, text.as_bytes()))
}

// Cut where a file of a line failed.
fn outcome_of(recordings: &[Recording<RunSink>]) -> Outcome {
    for i in 0..recordings.len() {
        if is_dead_out(recordings[i].place()) {
            return Outcome::Cut;
        }
    }
    Outcome::Done
}

fn ending_of(joined: &Joined, carried: &Carried, outcome: Outcome) -> Ending {
    Ending {
        nodes: joined.file.nodes.as_slice().len(),
        fibres: joined.file.fibres.as_slice().len(),
        whole: carried.fillings.iter().filter(|f| f.whole).count(),
        outcome,
    }
}
