// The rules of fibres: of the nodes and the lines at their ends.
ghost use Rattle.std.specs.Prelude.{◌≡◌, ◌≤◌, length, take};
ghost use Rattle.std.specs.List.{list_any};
ghost use Rattle.plan_file.specs.Places.{first, later_places, places};
ghost use Rattle.network_file.specs.Rules.{lacks_line, lacks_node, lead_to_one_line, names};

use crate::lists::item;
use crate::outline::{Fibre, Node};
use otn_base::limits::LINES;
use plan_table::is_within;

/// The number of the first fibre of which an end names no node.
#[tactic(auto, using(plan_file::proofs::Steps::singles))]
pub(crate) fn first_without_node(nodes: &[Node], fibres: &[Fibre]) -> Option<usize>
    ensures { result ≡ first (places (lacks_node nodes.now) fibres.now) }
{
    for i in 0..fibres.len() {
        if lacks_node(nodes, item(fibres, i)) {
            return Some(i + 1);
        }
    }
    None
}

/// The number of the first fibre of which an end is at no line.
#[tactic(auto, using(plan_file::proofs::Steps::singles))]
pub(crate) fn first_without_line(fibres: &[Fibre]) -> Option<usize>
    ensures { result ≡ first (places lacks_line fibres.now) }
{
    for i in 0..fibres.len() {
        if lacks_line(item(fibres, i)) {
            return Some(i + 1);
        }
    }
    None
}

/// The number of the first fibre that leads to the line input of one before it.
#[tactic(auto, using(plan_file::proofs::Steps::pairs))]
pub(crate) fn first_line_twice(fibres: &[Fibre]) -> Option<usize>
    ensures { result ≡ first (later_places lead_to_one_line fibres.now) }
{
    for i in 0..fibres.len() {
        if is_line_taken(fibres, i, item(fibres, i)) {
            return Some(i + 1);
        }
    }
    None
}

// Whether the fibre leads to the line input of one of the first so many.
#[tactic(auto, using(plan_file::proofs::Steps::anys, plan_file::proofs::Steps::slice_get_front))]
fn is_line_taken(fibres: &[Fibre], count: usize, later: &Fibre) -> bool
    requires { count ≤ length fibres.now }
    ensures { result ≡ list_any (λ earlier. lead_to_one_line earlier later.now) (take count fibres.now) }
{
    for i in 0..count {
        if lead_to_one_line(item(fibres, i), later) {
            return true;
        }
    }
    false
}

fn lead_to_one_line(fibre: &Fibre, other: &Fibre) -> bool
    ensures { result ≡ lead_to_one_line fibre.now other.now }
{
    fibre.to.node() == other.to.node() && fibre.to.line() == other.to.line()
}

fn lacks_line(fibre: &Fibre) -> bool
    ensures { result ≡ lacks_line fibre.now }
{
    !(is_within(fibre.from.line(), 0, LINES as u128 - 1)
        && is_within(fibre.to.line(), 0, LINES as u128 - 1))
}

fn lacks_node(nodes: &[Node], fibre: &Fibre) -> bool
    ensures { result ≡ lacks_node nodes.now fibre.now }
{
    !(names(nodes, fibre.from.node()) && names(nodes, fibre.to.node()))
}

// Whether a node has the name.
fn names(nodes: &[Node], name: &str) -> bool
    ensures { result ≡ names nodes.now name.now }
{
    for node in nodes {
        if node.is_named(name) {
            return true;
        }
    }
    false
}
