// The nodes of a network's file.
ghost use Rattle.std.specs.Prelude.{◌≡◌, string_bytes};

use plan_file::Name;
use std::marker::Model;

/// The folder of a node: any text, seen as its bytes.
#[derive(Debug, Drop)]
pub struct Folder {
    text: String,
}

impl Model for Folder {
    ghost use Rattle.std.specs.Prelude.{List, ℕ, string_bytes};

    ghost Value = { List ℕ };

    ghost view = { λ folder. string_bytes folder.text };
}

impl Folder {
    /// The folder that the text is.
    pub fn of(text: String) -> Folder
        ensures { result ≡ string_bytes text }
    {
        Folder { text }
    }

    /// The text of the folder.
    pub fn as_str(&self) -> &str
        ensures { result.now ≡ self.now }
    {
        self.text.as_str()
    }
}

/// A node of a network: its name, and the folder where its plan and the files of its clients are.
#[derive(Debug, Drop)]
pub struct NodeEntry {
    pub name: Name,
    pub folder: Folder,
}

/// The nodes of a network, in the order of its file.
#[derive(Debug, Drop)]
pub struct Nodes {
    list: Vec<NodeEntry>,
}

impl Model for Nodes {
    ghost use Rattle.std.specs.Prelude.{List};
    ghost use Rattle.network_file.specs.declared.node.NodeEntry.{NodeEntry};

    ghost Value = { List NodeEntry };

    ghost view = { λ nodes. nodes.list.items };
}

impl Nodes {
    /// The nodes of this list, in its order.
    pub fn of(list: Vec<NodeEntry>) -> Nodes
        ensures { result ≡ list.items }
    {
        Nodes { list }
    }

    /// The nodes, in order.
    pub fn as_slice(&self) -> &[NodeEntry]
        ensures { result.now ≡ self.now }
    {
        self.list.as_slice()
    }
}
