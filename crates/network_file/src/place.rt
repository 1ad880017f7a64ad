// Where a rule is broken.
ghost use Rattle.std.specs.Prelude.{◌≡◌, option_map};
ghost use Rattle.network_file.specs.Places.{at_top};

use std::fmt;

/// A place of a network's file. Nodes, fibres and cuts count from 1, each in the order of the file.
#[derive(Clone, Copy, Debug, PartialEq, Eq)]
pub enum Place {
    /// The top.
    Top,
    /// The node of this number.
    Node(usize),
    /// The fibre of this number.
    Fibre(usize),
    /// The cut of this number.
    Cut(usize),
}

/// `0` for the top, `node 3`, `fibre 3`, `cut 3`.
impl fmt::Display for Place {
    ghost use Rattle.std.specs.Prelude.{Some};
    ghost use Rattle.network_file.specs.Places.{place_text};

    ghost output = { λ place. Some (place_text place) };

    fn fmt<W: fmt::Write>(&self, f: &mut fmt::Formatter<W>) -> fmt::Result {
        match *self {
            Place::Top => write!(f, "0"),
            Place::Node(number) => write!(f, "node {number}"),
            Place::Fibre(number) => write!(f, "fibre {number}"),
            Place::Cut(number) => write!(f, "cut {number}"),
        }
    }
}

/// The top, where the rule is broken there.
pub(crate) fn at_top(broken: bool) -> Option<Place>
    ensures { result ≡ at_top broken }
{
    if broken { Some(Place::Top) } else { None }
}

/// The node of this number, if there is one.
pub(crate) fn at_node(number: Option<usize>) -> Option<Place>
    ensures { result ≡ option_map Place.Node number }
{
    match number {
        Some(number) => Some(Place::Node(number)),
        None => None,
    }
}

/// The fibre of this number, if there is one.
pub(crate) fn at_fibre(number: Option<usize>) -> Option<Place>
    ensures { result ≡ option_map Place.Fibre number }
{
    match number {
        Some(number) => Some(Place::Fibre(number)),
        None => None,
    }
}

/// The cut of this number, if there is one.
pub(crate) fn at_cut(number: Option<usize>) -> Option<Place>
    ensures { result ≡ option_map Place.Cut number }
{
    match number {
        Some(number) => Some(Place::Cut(number)),
        None => None,
    }
}
