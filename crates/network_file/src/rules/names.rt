// The rules of nodes: of their names and folders.
ghost use Rattle.std.specs.Prelude.{◌≡◌, ◌≤◌, length, take};
ghost use Rattle.std.specs.List.{list_any};
ghost use Rattle.plan_file.specs.Places.{first, later_places, places};
ghost use Rattle.plan_table.specs.NumberTests.{is_name_byte};
ghost use Rattle.network_file.specs.Rules.{breaks_name, have_one_name, is_folder, is_path, is_path_byte};

use crate::lists::item;
use crate::outline::Node;
use plan_table::is_name;

/// The number of the first node whose name, or whose folder, is no such text.
#[tactic(auto, using(plan_file::proofs::Steps::singles))]
pub(crate) fn first_bad_name(nodes: &[Node]) -> Option<usize>
    ensures { result ≡ first (places breaks_name nodes.now) }
{
    for i in 0..nodes.len() {
        if breaks_name(item(nodes, i)) {
            return Some(i + 1);
        }
    }
    None
}

/// The number of the first node that has the name of one before it.
#[tactic(auto, using(plan_file::proofs::Steps::pairs))]
pub(crate) fn first_name_twice(nodes: &[Node]) -> Option<usize>
    ensures { result ≡ first (later_places have_one_name nodes.now) }
{
    for i in 0..nodes.len() {
        if has_name_before(nodes, i, item(nodes, i)) {
            return Some(i + 1);
        }
    }
    None
}

// Whether the node has the name of one of the first so many.
#[tactic(auto, using(plan_file::proofs::Steps::anys, plan_file::proofs::Steps::slice_get_front))]
fn has_name_before(nodes: &[Node], count: usize, later: &Node) -> bool
    requires { count ≤ length nodes.now }
    ensures { result ≡ list_any (λ earlier. have_one_name earlier later.now) (take count nodes.now) }
{
    for i in 0..count {
        if have_one_name(item(nodes, i), later) {
            return true;
        }
    }
    false
}

fn have_one_name(node: &Node, other: &Node) -> bool
    ensures { result ≡ have_one_name node.now other.now }
{
    node.name() == other.name()
}

fn breaks_name(node: &Node) -> bool
    ensures { result ≡ breaks_name node.now }
{
    !(is_name(node.name()) && is_folder(node.folder().as_bytes()))
}

// Whether the path is one below the folder of the network's file: parts of name bytes and dots, each beginning with a
// name byte, with slashes between them.
fn is_folder(path: &[u8]) -> bool
    ensures { result ≡ is_folder path.now }
{
    let mut in_part = false;
    for byte in path {
        if !is_path_byte(in_part, *byte) {
            return false;
        }
        in_part = *byte != b'/';
    }
    in_part
}

fn is_path_byte(in_part: bool, byte: u8) -> bool
    ensures { result ≡ is_path_byte in_part byte }
{
    is_name_byte(byte) || (in_part && (byte == b'.' || byte == b'/'))
}

fn is_name_byte(byte: u8) -> bool
    ensures { result ≡ is_name_byte byte }
{
    matches!(byte, b'a'..=b'z' | b'0'..=b'9' | b'-')
}
