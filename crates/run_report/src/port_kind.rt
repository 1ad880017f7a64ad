// The kinds of ports, each of which has lines of a form of its own in the report.
ghost use Rattle.std.specs.Prelude.{◌≡◌};
ghost use Rattle.run_report.specs.Steps.RunReport.{count_of, port_of};

use otn_base::PortName;
use otn_base::limits::{CLIENTS, LINES};

/// A kind of ports.
#[derive(Clone, Copy)]
pub(crate) enum PortKind {
    LinesIn,
    LinesOut,
    ClientsIn,
    ClientsOut,
}

impl PortKind {
    /// How many ports of the kind there are.
    pub(crate) fn count(self) -> u8
        ensures { result ≡ count_of self }
    {
        match self {
            PortKind::LinesIn => LINES as u8,
            PortKind::LinesOut => LINES as u8,
            PortKind::ClientsIn => CLIENTS as u8,
            PortKind::ClientsOut => CLIENTS as u8,
        }
    }

    /// Port n of the kind.
    pub(crate) fn port(self, n: u8) -> PortName
        ensures { result ≡ port_of self n }
    {
        match self {
            PortKind::LinesIn => PortName::LineIn(n),
            PortKind::LinesOut => PortName::LineOut(n),
            PortKind::ClientsIn => PortName::ClientIn(n),
            PortKind::ClientsOut => PortName::ClientOut(n),
        }
    }
}
