// The connections of a plan.
ghost use Rattle.std.specs.Prelude.{◌≡◌};

use crate::connection::Connection;
use std::marker::Model;

/// The connections of a plan, in the order of its file.
#[derive(Debug, Drop)]
pub struct Connections {
    list: Vec<Connection>,
}

impl Model for Connections {
    ghost use Rattle.std.specs.Prelude.{List};
    ghost use Rattle.plan_file.specs.declared.connection.Connection.{Connection};

    ghost Value = { List Connection };

    ghost view = { λ connections. connections.list.items };
}

impl Connections {
    /// The connections of this list, in its order.
    pub fn of(list: Vec<Connection>) -> Connections
        ensures { result ≡ list.items }
    {
        Connections { list }
    }

    /// The connections, in order.
    pub fn as_slice(&self) -> &[Connection]
        ensures { result.now ≡ self.now }
    {
        self.list.as_slice()
    }
}
