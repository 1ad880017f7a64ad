// The file of a network.
ghost use Rattle.std.specs.Prelude.{◌≡◌, ◌≢◌, Err, IfOk};
ghost use Rattle.network_file.specs.Answer.{network_of_text};
ghost use Rattle.network_file.specs.Sound.{IsSound};

use crate::cut::Cuts;
use crate::error::{NetworkError, NoNetwork};
use crate::fibre::Fibres;
use crate::node::Nodes;
use crate::place::Place;
use crate::read;
use std::alloc::Global;

/// What the file of a network says: its nodes, the fibres between them, and the cuts of these, each in the order of the
/// file.
#[derive(Debug, Drop)]
pub struct NetworkFile {
    pub nodes: Nodes,
    pub fibres: Fibres,
    pub cuts: Cuts,
}

impl NetworkFile {
    /// The file that the text says (TOML of at most 1,048,576 bytes), or the first rule that it breaks, at its first
    /// place: of the first ten, and then of those of cuts. An accepted file has 1 to 1,024 nodes, no two of one name.
    /// It has at most 4,096 fibres, each from a line of one of them to a line of one, no two to one line input; and at
    /// most 4,096 cuts, each of one of the fibres, in turns `from` to `until` - 1, where `until` is 16,384 at most.
    pub fn read(alloc: Global, text: &[u8]) -> Result<NetworkFile, NoNetwork>
        ensures file { result ≢ Err NoNetwork.Memory → result ≡ network_of_text text.now }
        ensures sound { IfOk result IsSound }
    {
        match read::table_of(alloc, text) {
            Ok(Some(top)) => read::file(alloc, &top),
            Ok(None) => Err(NoNetwork::Refused(NetworkError::NotToml, Place::Top)),
            Err(_) => Err(NoNetwork::Memory),
        }
    }
}
