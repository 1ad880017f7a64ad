// A node, as the text has it.
ghost use Rattle.std.specs.Prelude.{◌≡◌};
ghost use Rattle.std.specs.Str.{bytes_eq};
ghost use Rattle.toml.specs.View.{view};
ghost use Rattle.network_file.specs.Table.{node_at};

use plan_table::text_or_empty;
use std::marker::Model;
use toml::Value;

/// A node: its name and its folder.
#[derive(Drop)]
pub(crate) struct Node<'a> {
    name: &'a str,
    folder: &'a str,
}

impl<'a> Model for Node<'a> {
    ghost use Rattle.network_file.specs.declared.node.NodeEntry.{NodeEntry};

    ghost Value = { NodeEntry };

    ghost view = { λ n. record { name = n.name.now; folder = n.folder.now } };
}

impl<'a> Node<'a> {
    /// The node that the value says.
    pub(crate) fn of_table(node: &'a Value) -> Node<'a>
        ensures { result ≡ node_at (view node.now) }
    {
        let name = text_or_empty(node.get("name"));
        match node.get("folder") {
            Some(folder) => Node {
                name,
                folder: text_or_empty(Some(folder)),
            },
            None => Node { name, folder: name },
        }
    }

    /// Whether this is its name.
    pub(crate) fn is_named(&self, name: &str) -> bool
        ensures { result ≡ bytes_eq name.now self.now.name }
    {
        name == self.name
    }

    pub(crate) fn name(&self) -> &'a str
        ensures { result.now ≡ self.now.name }
    {
        self.name
    }

    pub(crate) fn folder(&self) -> &'a str
        ensures { result.now ≡ self.now.folder }
    {
        self.folder
    }
}
