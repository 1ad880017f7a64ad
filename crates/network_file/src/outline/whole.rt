// All nodes, fibres and cuts, as the text has them.
ghost use Rattle.std.specs.Prelude.{◌≡◌, IfOk, map};
ghost use Rattle.toml.specs.View.{table_view, view};
ghost use Rattle.network_file.specs.Table.{cut_at, fibre_at, node_at, outline_at};

use crate::outline::cut::Cut;
use crate::outline::fibre::Fibre;
use crate::outline::node::Node;
use crate::table::{cuts_at, fibres_at, nodes_at};
use otn_base::Memory;
use plan_table::item;
use std::alloc::Global;
use std::marker::Model;
use toml::{Table, Value};

/// The nodes, the fibres and the cuts, each in order.
#[derive(Drop)]
pub(crate) struct Outline<'a> {
    pub(crate) nodes: Vec<Node<'a>>,
    pub(crate) fibres: Vec<Fibre<'a>>,
    pub(crate) cuts: Vec<Cut>,
}

impl<'a> Model for Outline<'a> {
    ghost use Rattle.network_file.specs.Outline.{Outline};

    ghost Value = { Outline };

    ghost view = { λ o. record { nodes = o.nodes.items; fibres = o.fibres.items; cuts = o.cuts.items } };
}

impl<'a> Outline<'a> {
    /// The outline that the table says.
    pub(crate) fn of_table(alloc: Global, top: &'a Table) -> Result<Outline<'a>, Memory>
        ensures { IfOk result (λ outline. outline ≡ outline_at (table_view top.now)) }
    {
        let nodes = nodes_of(alloc, nodes_at(top))?;
        let fibres = fibres_of(alloc, fibres_at(top))?;
        let cuts = cuts_of(alloc, cuts_at(top))?;
        Ok(Outline {
            nodes,
            fibres,
            cuts,
        })
    }
}

#[tactic(auto, using(crate::proofs::Filled::twice_all))]
fn nodes_of<'a>(alloc: Global, values: &'a [Value]) -> Result<Vec<Node<'a>>, Memory>
    ensures { IfOk result (λ list. list.items ≡ map node_at (map view values.now)) }
{
    let mut list = Vec::new(alloc);
    for i in 0..values.len() {
        list.push(Node::of_table(item(values, i)))?;
    }
    Ok(list)
}

#[tactic(auto, using(crate::proofs::Filled::twice_all))]
fn fibres_of<'a>(alloc: Global, values: &'a [Value]) -> Result<Vec<Fibre<'a>>, Memory>
    ensures { IfOk result (λ list. list.items ≡ map fibre_at (map view values.now)) }
{
    let mut list = Vec::new(alloc);
    for i in 0..values.len() {
        list.push(Fibre::of_table(item(values, i)))?;
    }
    Ok(list)
}

#[tactic(auto, using(crate::proofs::Filled::twice_all))]
fn cuts_of(alloc: Global, values: &[Value]) -> Result<Vec<Cut>, Memory>
    ensures { IfOk result (λ list. list.items ≡ map cut_at (map view values.now)) }
{
    let mut list = Vec::new(alloc);
    for i in 0..values.len() {
        list.push(Cut::of_table(item(values, i)))?;
    }
    Ok(list)
}
