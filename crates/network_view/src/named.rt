// A network with the names of its nodes, and its entries.
ghost use Rattle.std.specs.Prelude.{◌≡◌, ◌++◌, IfOk};
ghost use Rattle.network_view.specs.Entries.{legs_of, legs_at, name_of};

use network_parts::FibreEnds;
use otn_base::Memory;
use plan_file::{Connection, Name, Plan};
use std::alloc::Global;
use std::marker::Model;

/// A network: the plan of each node, the fibres between them, and the names of the nodes, in one order.
#[derive(Drop)]
pub struct NamedNetwork<'a> {
    plans: &'a [Plan],
    fibres: &'a [FibreEnds],
    names: &'a [Name],
}

impl<'a> Model for NamedNetwork<'a> {
    ghost use Rattle.network_view.specs.Entries.{Named};

    ghost Value = { Named };

    ghost view = { λ n. record {
      network = record { plans = n.plans.now; fibres = n.fibres.now };
      names = n.names.now;
    } };
}

impl<'a> NamedNetwork<'a> {
    /// The network of these plans and fibres, whose nodes have these names.
    pub fn new(plans: &'a [Plan], fibres: &'a [FibreEnds], names: &'a [Name]) -> NamedNetwork<'a>
        ensures { result ≡ record { network = record { plans = plans.now; fibres = fibres.now }; names = names.now } }
    {
        NamedNetwork {
            plans,
            fibres,
            names,
        }
    }

    /// The plans of the nodes.
    pub fn plans(&self) -> &'a [Plan]
        ensures { result.now ≡ self.now.network.plans }
    {
        self.plans
    }

    /// The fibres.
    pub fn fibres(&self) -> &'a [FibreEnds]
        ensures { result.now ≡ self.now.network.fibres }
    {
        self.fibres
    }

    /// The name of the node of this index; empty where there is none.
    pub fn name(&self, node: usize) -> &'a str
        ensures { result.now ≡ name_of self.now node }
    {
        match self.names.get(node) {
            Some(name) => name.as_str(),
            None => "",
        }
    }
}

/// An entry of a network: the index of the node, and the entry of its plan.
#[derive(Drop)]
pub struct Leg<'a> {
    node: usize,
    x: &'a Connection,
}

impl<'a> Model for Leg<'a> {
    ghost use Rattle.network_laws.specs.Routes.{Leg};

    ghost Value = { Leg };

    ghost view = { λ l. record { node = l.node; x = l.x.now } };
}

impl<'a> Leg<'a> {
    /// This entry of the plan of the node with this index.
    pub fn new(node: usize, x: &'a Connection) -> Leg<'a>
        ensures { result ≡ record { node = node; x = x.now } }
    {
        Leg { node, x }
    }

    /// The same entry.
    pub fn again(&self) -> Leg<'a>
        ensures { result ≡ self.now }
    {
        Leg {
            node: self.node,
            x: self.x,
        }
    }

    /// The index of the node.
    pub fn node(&self) -> usize
        ensures { result ≡ self.now.node }
    {
        self.node
    }

    /// The entry of its plan.
    pub fn entry(&self) -> &'a Connection
        ensures { result.now ≡ self.now.x }
    {
        self.x
    }
}

/// All entries of a network, in the order of its nodes and of their plans.
pub fn legs_of<'a>(alloc: Global, named: &NamedNetwork<'a>) -> Result<Vec<Leg<'a>>, Memory>
    ensures { IfOk result (λ legs. legs.items ≡ legs_of named.now.network) }
{
    let mut legs = Vec::new(alloc);
    let plans = named.plans();
    for node in 0..plans.len() {
        add_legs(&mut legs, node, plans[node].connections.as_slice())?;
    }
    Ok(legs)
}

// Appends the entries of the node of this index.
fn add_legs<'a>(
    legs: &mut Vec<Leg<'a>>,
    node: usize,
    entries: &'a [Connection],
) -> Result<(), Memory>
    ensures { IfOk result (λ _. legs.new.items ≡ legs.old.items ++ legs_at node entries.now) }
{
    for x in entries {
        legs.push(Leg::new(node, x))?;
    }
    Ok(())
}
