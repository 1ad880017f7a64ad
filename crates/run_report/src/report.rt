// The report of a run, as text in room that was taken before.
ghost use Rattle.std.specs.Prelude.{◌≡◌, ◌≤◌, ◌<◌, ◌+◌, ◌*◌, ◌++◌, [], if◌then◌else◌, None};
ghost use Rattle.arrayvec.specs.ArrayString.{array_string_len};
ghost use Rattle.otn_base.specs.declared.limits.TheConstants.{MOST_CONNECTIONS};
ghost use Rattle.port_base.specs.Racks.{bays_view};
ghost use Rattle.plan_file.specs.Answer.{fault_in};
ghost use Rattle.device_model.specs.Moments.{uses};
ghost use Rattle.device_model.specs.Report.{connection_lines, report_text, used_lines};
ghost use Rattle.device_model.specs.RunNumbers.{numbers_of_run};
ghost use Rattle.run_report.specs.Steps.RunReport.{count_of, port_line, port_of, width_of};
ghost use Rattle.run_report.specs.declared.report_lines.TheConstants.{CONNECTION_BYTES};

use crate::port_kind::PortKind;
use crate::report_lines::{REPORT_BYTES, put_connection, put_port, put_status, put_turns};
use arrayvec::ArrayString;
use device_model::{RunNumbers, accepted_plans};
use plan_file::Plan;
use port_base::{Rack, Sink, Source};
use turn_pieces::uses;

/// Puts the report of a run over an accepted plan into the empty text: the turns, a line for each port that
/// the plan uses, one for each of its connections, and how the run ended. There is room for it whatever the
/// numbers are.
pub fn put_report<I: Source, O: Sink>(
    text: &mut ArrayString<REPORT_BYTES>,
    plan: &Plan,
    numbers: &RunNumbers,
    bays: &Rack<I, O>,
)
    requires accepted { fault_in plan.now ≡ None }
    requires empty { text.old.bytes ≡ [] }
    ensures text { text.new.bytes ≡ report_text plan.now (numbers_of_run numbers.now)
        (bays_view I.Source O.Sink bays.now) }
    ensures most { array_string_len text.new ≤ REPORT_BYTES }
{
    put_turns(text, plan.turns);
    put_ports(text, plan, numbers, bays, PortKind::LinesIn);
    put_ports(text, plan, numbers, bays, PortKind::LinesOut);
    put_ports(text, plan, numbers, bays, PortKind::ClientsIn);
    put_ports(text, plan, numbers, bays, PortKind::ClientsOut);
    put_connections(text, plan, numbers);
    put_status(text, numbers.outcome);
}

// The lines of the ports of a kind that the plan uses, by number.
fn put_ports<I: Source, O: Sink>(
    text: &mut ArrayString<REPORT_BYTES>,
    plan: &Plan,
    numbers: &RunNumbers,
    bays: &Rack<I, O>,
    kind: PortKind,
)
    requires room { array_string_len text.old + width_of kind * count_of kind ≤ REPORT_BYTES }
    ensures text { text.new.bytes ≡ text.old.bytes
        ++ used_lines (count_of kind) (λ n. uses plan.now (port_of kind n))
        (port_line (numbers_of_run numbers.now) (bays_view I.Source O.Sink bays.now) kind) }
    ensures most { array_string_len text.new ≤ array_string_len text.old + width_of kind * count_of kind }
{
    for n in 0..kind.count() {
        put_used(text, plan, numbers, bays, kind, n);
    }
}

// The line of port n of a kind where the plan uses it.
fn put_used<I: Source, O: Sink>(
    text: &mut ArrayString<REPORT_BYTES>,
    plan: &Plan,
    numbers: &RunNumbers,
    bays: &Rack<I, O>,
    kind: PortKind,
    n: u8,
)
    requires port { n < count_of kind }
    requires room { array_string_len text.old + width_of kind ≤ REPORT_BYTES }
    ensures text { text.new.bytes ≡ text.old.bytes
        ++ (if uses plan.now (port_of kind n)
        then port_line (numbers_of_run numbers.now) (bays_view I.Source O.Sink bays.now) kind n else []) }
    ensures most { array_string_len text.new ≤ array_string_len text.old + width_of kind }
{
    if uses(plan, kind.port(n)) {
        put_port(text, numbers, bays, kind, n);
    }
}

// The lines of the connections, in the plan's order.
fn put_connections(text: &mut ArrayString<REPORT_BYTES>, plan: &Plan, numbers: &RunNumbers)
    requires accepted { fault_in plan.now ≡ None }
    requires room { array_string_len text.old + CONNECTION_BYTES * MOST_CONNECTIONS ≤ REPORT_BYTES }
    ensures text { text.new.bytes ≡ text.old.bytes
        ++ connection_lines 0 (numbers_of_run numbers.now).from plan.now.connections }
    ensures most { array_string_len text.new ≤ array_string_len text.old + CONNECTION_BYTES * MOST_CONNECTIONS }
{
    accepted_plans();
    let connections = plan.connections.as_slice();
    for i in 0..connections.len() {
        put_connection(text, connections[i].name.as_str(), numbers.from[i]);
    }
}
