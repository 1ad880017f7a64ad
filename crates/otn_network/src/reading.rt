// The file of the network, and the plans of its nodes.
ghost use Rattle.std.specs.Prelude.{◌≡◌, ◌<◌, None, Some, length, slice_get};
ghost use Rattle.network_laws.specs.Networks.{IsNetwork};
ghost use Rattle.network_file.specs.Joining.{network_of};
ghost use Rattle.network_file.specs.Sound.{IsSound};
ghost use Rattle.plan_file.specs.Answer.{fault_in};

use crate::answer::Answer;
use check_command::{Planned, read_plan};
use network_file::{NetworkFile, NoNetwork, NodeEntry, fault};
use otn_base::Memory;
use otn_base::limits::MOST_PLAN_BYTES;
use otn_ports::FileSource;
use plan_file::{Name, Plan};
use port_base::{Reading, read_whole};
use std::alloc::{AllocError, Global};
use std::fs;

/// A network's file, and the plans of its nodes, that make a network.
#[derive(Drop)]
pub(crate) struct Joined {
    pub(crate) file: NetworkFile,
    pub(crate) plans: Vec<Plan>,
    ghost sound: { IsSound file },
    ghost count: { length plans.items ≡ length file.nodes },
    ghost network: { IsNetwork (network_of file plans.items) },
}

impl Joined {
    /// The plan of the node with this index, which is accepted.
    pub(crate) fn plan(&self, index: usize) -> &Plan
        requires { index < length self.now.plans.items }
        ensures at { slice_get self.now.plans.items index ≡ Some result.now }
        ensures accepted { fault_in result.now ≡ None }
    {
        &self.plans[index]
    }
}

/// What was read.
#[derive(Drop)]
pub(crate) enum Read {
    Accepted(Joined),
    /// The file or a plan is refused, or can't be read.
    Refused(Answer),
}

/// Reads the file of this name, and the plan of each node in its folder beside it.
pub(crate) fn read_all(rt: &HostRuntime, path: &str) -> Result<Read, Memory> {
    let mut text = buffer(rt.alloc())?;
    let mut source = FileSource::of(fs::open(rt, path).ok());
    let (reading, count) = read_whole(&mut source, &mut text);
    if reading == Reading::Lost {
        return Ok(Read::Refused(Answer::Fault));
    }
    match NetworkFile::read(rt.alloc(), &text[..count]) {
        Ok(file) => read_plans(rt, base_of(path), file),
        Err(NoNetwork::Refused(error, place)) => Ok(Read::Refused(Answer::Network(error, place))),
        Err(NoNetwork::Memory) => Err(Memory),
    }
}

// Room for the longest file and one byte more.
fn buffer(alloc: Global) -> Result<Vec<u8>, AllocError> {
    vec![in alloc; 0; MOST_PLAN_BYTES + 1]
}

/// The folder of a file, with the slash behind it.
pub(crate) fn base_of(path: &str) -> &str {
    match path.rfind('/') {
        Some(at) => &path[..at + 1],
        None => "",
    }
}

fn read_plans(rt: &HostRuntime, base: &str, file: NetworkFile) -> Result<Read, Memory>
    requires sound { IsSound file }
{
    let mut plans = Vec::new(rt.alloc());
    let nodes = file.nodes.as_slice();
    for i in 0..nodes.len() {
        match read_node(rt, base, i + 1, &nodes[i])? {
            Ok(plan) => plans.push(plan)?,
            Err(answer) => return Ok(Read::Refused(answer)),
        }
    }
    Ok(match fault(&file, plans.as_slice()) {
        None => Read::Accepted(Joined { file, plans }),
        Some((error, place)) => Read::Refused(Answer::Network(error, place)),
    })
}

// The plan of a node, or why there is none.
fn read_node(
    rt: &HostRuntime,
    base: &str,
    number: usize,
    node: &NodeEntry,
) -> Result<Result<Plan, Answer>, Memory> {
    let folder = node.folder.as_str();
    let path = format!(in rt.alloc(); "{base}{folder}/plan.toml")?;
    let mut source = FileSource::of(fs::open(rt, &path).ok());
    Ok(match read_plan(rt.alloc(), &mut source)? {
        Planned::Accepted(plan) => Ok(plan),
        Planned::Refused(error, place) => {
            let name = String::from_str(rt.alloc(), node.name.as_str())?;
            Err(Answer::Plan(number, name, error, place))
        }
        Planned::Fault => Err(Answer::Fault),
    })
}

/// The names of these nodes.
pub(crate) fn names_of(alloc: Global, nodes: &[NodeEntry]) -> Result<Vec<Name>, Memory> {
    let mut names = Vec::new(alloc);
    for node in nodes {
        names.push(Name::of(String::from_str(alloc, node.name.as_str())?))?;
    }
    Ok(names)
}
