// The ports of a device by number.
ghost use Rattle.std.specs.Prelude.{◌≡◌, ◌<◌, ◌≤◌, ◌+◌, ◌==◌, nat_lt, if◌then◌else◌};
ghost use Rattle.std.specs.List.{list_any};
ghost use Rattle.device_model.specs.Entries.{is_from_line, is_from_client, is_to_line, is_to_client, kind_by};
ghost use Rattle.device_model.specs.Moments.{touches, uses, pieces_by, pieces_of};
ghost use Rattle.turn_pieces.specs.Ports.{index_of, port_at, port_count};

use otn_base::limits::{CLIENTS, LINES};
use otn_base::{LineKind, PortName};
use plan_file::{Connection, FromEnd, Plan, ToEnd};

/// How many ports there are: lines in, lines out, clients in, clients out.
pub const PORTS: usize = 2 * (LINES + CLIENTS);

// The numbers of the first line out, the first client in and the first client out.
const LINES_OUT: usize = LINES;

const CLIENTS_IN: usize = 2 * LINES;

const CLIENTS_OUT: usize = CLIENTS_IN + CLIENTS;

/// The number of a port, from 0, in this order; the number of all ports for a name of no port.
pub(crate) fn index_of(name: PortName) -> usize
    ensures { result ≡ index_of name }
{
    match name {
        PortName::LineIn(n) => within(n, LINES as u8, 0),
        PortName::LineOut(n) => within(n, LINES as u8, LINES_OUT),
        PortName::ClientIn(n) => within(n, CLIENTS as u8, CLIENTS_IN),
        PortName::ClientOut(n) => within(n, CLIENTS as u8, CLIENTS_OUT),
    }
}

// Number n of a kind of which there are so many, the first having this number.
fn within(n: u8, count: u8, first: usize) -> usize
    requires { first ≤ port_count }
    ensures { result ≡ (if nat_lt n count then first + n else port_count) }
{
    if n < count { first + n as usize } else { PORTS }
}

/// The port of a number.
pub fn port_at(i: u8) -> PortName
    requires { i < port_count }
    ensures { result ≡ port_at i }
{
    if i < LINES_OUT as u8 {
        return PortName::LineIn(i);
    }
    if i < CLIENTS_IN as u8 {
        return PortName::LineOut(i - LINES_OUT as u8);
    }
    if i < CLIENTS_OUT as u8 {
        return PortName::ClientIn(i - CLIENTS_IN as u8);
    }
    PortName::ClientOut(i - CLIENTS_OUT as u8)
}

/// The kind of a line, by the list of the lines of its side that are OTU3 (G.709 clause 19.1).
pub fn kind_by(otu3: &[u8], line: u8) -> LineKind
    ensures { result ≡ kind_by otu3.now line }
{
    if has_number(otu3, line) {
        LineKind::Otu3
    } else {
        LineKind::Otu2
    }
}

/// Whether the number is in the list.
pub fn has_number(list: &[u8], number: u8) -> bool
    ensures { result ≡ list_any (λ n. n == number) list.now }
{
    for n in list {
        if *n == number {
            return true;
        }
    }
    false
}

/// How many pieces the port has in a turn of the plan: 8 or 32 for a line, 1 for a client, none where no connection
/// uses it.
#[tactic(auto, unfolding(device_model::specs::Moments::pieces_of))]
pub(crate) fn pieces_of(plan: &Plan, name: PortName) -> u8
    ensures { result ≡ pieces_of plan.now name }
{
    if uses(plan, name) {
        pieces_by(plan, name)
    } else {
        0
    }
}

// How many it has where it is used.
fn pieces_by(plan: &Plan, name: PortName) -> u8
    ensures { result ≡ pieces_by plan.now name }
{
    match name {
        PortName::LineIn(a) => kind_by(plan.otu3_in.as_slice(), a).slots(),
        PortName::LineOut(b) => kind_by(plan.otu3_out.as_slice(), b).slots(),
        PortName::ClientIn(_) => 1,
        PortName::ClientOut(_) => 1,
    }
}

/// Whether some connection of the plan comes from the port or goes to it.
pub fn uses(plan: &Plan, name: PortName) -> bool
    ensures { result ≡ uses plan.now name }
{
    is_touched(name, plan.connections.as_slice())
}

// Whether one of the connections does.
fn is_touched(name: PortName, connections: &[Connection]) -> bool
    ensures { result ≡ list_any (touches name) connections.now }
{
    for connection in connections {
        if touches(name, connection) {
            return true;
        }
    }
    false
}

/// Whether the connection comes from the port or goes to it.
pub fn touches(name: PortName, connection: &Connection) -> bool
    ensures { result ≡ touches name connection.now }
{
    match name {
        PortName::LineIn(a) => comes_from_line(a, &connection.from),
        PortName::LineOut(b) => goes_to_line(b, &connection.to),
        PortName::ClientIn(n) => comes_from_client(n, &connection.from),
        PortName::ClientOut(n) => goes_to_client(n, &connection.to),
    }
}

fn comes_from_line(a: u8, from: &FromEnd) -> bool
    ensures { result ≡ is_from_line a from.now }
{
    match from {
        FromEnd::Line(line, ..) => *line == a,
        FromEnd::Client(_) => false,
        FromEnd::Signal(_) => false,
    }
}

fn comes_from_client(n: u8, from: &FromEnd) -> bool
    ensures { result ≡ is_from_client n from.now }
{
    match from {
        FromEnd::Line(..) => false,
        FromEnd::Client(client) => *client == n,
        FromEnd::Signal(_) => false,
    }
}

fn goes_to_line(b: u8, to: &ToEnd) -> bool
    ensures { result ≡ is_to_line b to.now }
{
    match to {
        ToEnd::Line(line, ..) => *line == b,
        ToEnd::Client(_) => false,
    }
}

fn goes_to_client(n: u8, to: &ToEnd) -> bool
    ensures { result ≡ is_to_client n to.now }
{
    match to {
        ToEnd::Line(..) => false,
        ToEnd::Client(client) => *client == n,
    }
}
