// The file of an outline: its nodes, its fibres by the indices of their nodes, and its cuts.
ghost use Rattle.std.specs.Prelude.{◌≡◌, IfOk, IsTrue, map};
ghost use Rattle.otn_base.specs.declared.limits.TheConstants.{MOST_TURNS};
ghost use Rattle.plan_file.specs.Entry.{natural};
ghost use Rattle.plan_table.specs.NumberTests.{is_within};
ghost use Rattle.network_file.specs.declared.limits.TheConstants.{MOST_FIBRES};
ghost use Rattle.network_file.specs.Outline.{cut_of, ends_of, file_of, index_of};
ghost use Rattle.network_file.specs.Steps.Lines.{AreAtLines, AreInRange, IsAtLines, IsInRange};

use crate::cut::{Cut as FileCut, Cuts};
use crate::fibre::Fibres;
use crate::file::NetworkFile;
use crate::lists::item;
use crate::node::{Folder, NodeEntry, Nodes};
use crate::outline::{Cut, Fibre, Node, Outline};
use network_parts::FibreEnds;
use otn_base::Memory;
use plan_file::Name;
use std::alloc::Global;

/// The file of the outline.
pub(crate) fn numbered(alloc: Global, outline: &Outline) -> Result<NetworkFile, Memory>
    requires lines { AreAtLines outline.now.fibres }
    requires cuts { AreInRange outline.now.cuts }
    ensures { IfOk result (λ file. file ≡ file_of outline.now) }
{
    let nodes = entries(alloc, &outline.nodes)?;
    let fibres = ends(alloc, &outline.nodes, &outline.fibres)?;
    let cuts = cuts_of(alloc, &outline.cuts)?;
    Ok(NetworkFile {
        nodes: Nodes::of(nodes),
        fibres: Fibres::of(fibres),
        cuts: Cuts::of(cuts),
    })
}

// The nodes.
#[tactic(auto, using(crate::proofs::Filled::copied))]
fn entries(alloc: Global, nodes: &[Node]) -> Result<Vec<NodeEntry>, Memory>
    ensures { IfOk result (λ list. list.items ≡ nodes.now) }
{
    let mut list = Vec::new(alloc);
    for i in 0..nodes.len() {
        list.push(entry(alloc, item(nodes, i))?)?;
    }
    Ok(list)
}

fn entry(alloc: Global, node: &Node) -> Result<NodeEntry, Memory>
    ensures { IfOk result (λ entry. entry ≡ node.now) }
{
    let name = String::from_str(alloc, node.name())?;
    let folder = String::from_str(alloc, node.folder())?;
    Ok(NodeEntry {
        name: Name::of(name),
        folder: Folder::of(folder),
    })
}

// The fibres, between these nodes.
#[tactic(auto, using(plan_file::proofs::Filled::filled_more, plan_file::proofs::Filled::filled_all))]
fn ends(alloc: Global, nodes: &[Node], fibres: &[Fibre]) -> Result<Vec<FibreEnds>, Memory>
    requires { AreAtLines fibres.now }
    ensures { IfOk result (λ list. list.items ≡ map (ends_of nodes.now) fibres.now) }
{
    let mut list = Vec::new(alloc);
    for i in 0..fibres.len() {
        list.push(ends_of(nodes, item(fibres, i)))?;
    }
    Ok(list)
}

fn ends_of(nodes: &[Node], fibre: &Fibre) -> FibreEnds
    requires { IsAtLines fibre.now }
    ensures { result ≡ ends_of nodes.now fibre.now }
{
    FibreEnds::new(
        index_of(fibre.from.node(), nodes),
        line(fibre.from.line()),
        index_of(fibre.to.node(), nodes),
        line(fibre.to.line()),
    )
}

// The index of the first node of this name; where there is none, how many there are.
#[tactic(auto, using(crate::proofs::Names::indices))]
fn index_of(name: &str, nodes: &[Node]) -> usize
    ensures { result ≡ index_of name.now nodes.now }
{
    for i in 0..nodes.len() {
        if item(nodes, i).is_named(name) {
            return i;
        }
    }
    nodes.len()
}

// The number of a line.
fn line(number: i64) -> u8
    requires { IsTrue (is_within 0 3 number) }
    ensures { result ≡ natural number }
{
    number as u8
}

// The cuts.
#[tactic(auto, using(plan_file::proofs::Filled::filled_more, plan_file::proofs::Filled::filled_all))]
fn cuts_of(alloc: Global, cuts: &[Cut]) -> Result<Vec<FileCut>, Memory>
    requires { AreInRange cuts.now }
    ensures { IfOk result (λ list. list.items ≡ map cut_of cuts.now) }
{
    let mut list = Vec::new(alloc);
    for i in 0..cuts.len() {
        list.push(cut_of(item(cuts, i)))?;
    }
    Ok(list)
}

fn cut_of(cut: &Cut) -> FileCut
    requires { IsInRange cut.now }
    ensures { result ≡ cut_of cut.now }
{
    match cut.turns {
        Some((from, until)) => cut_in(cut.fibre, from, until),
        None => FileCut {
            fibre: cut.fibre as usize,
            from: 0,
            until: 0,
        },
    }
}

fn cut_in(fibre: i64, from: i64, until: i64) -> FileCut
    requires fibre { IsTrue (is_within 1 MOST_FIBRES fibre) }
    requires from { IsTrue (is_within 0 MOST_TURNS from) }
    requires until { IsTrue (is_within 0 MOST_TURNS until) }
    ensures { result ≡ record { fibre = natural fibre; from = natural from; until = natural until } }
{
    FileCut {
        fibre: fibre as usize,
        from: from as u32,
        until: until as u32,
    }
}
