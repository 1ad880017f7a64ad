// The rule on lines, clients and ports.
ghost use Rattle.std.specs.Prelude.{◌≡◌};
ghost use Rattle.plan_file.specs.Entry.{is_line, is_client};
ghost use Rattle.plan_file.specs.Rules.{breaks_lines, is_placed, breaks_place};
ghost use Rattle.plan_file.specs.Seen.{numbers_in};
ghost use Rattle.plan_file.specs.Steps.Seen.{end_in, entry_in, top_in};

use crate::outline::{End, Entry, Top};
use otn_base::limits::{CLIENTS, LINES};
use plan_table::{Numbers, is_line_list, is_within};

/// Whether one of the lists of lines is none.
pub(crate) fn breaks_lines(top: &Top) -> bool
    ensures { result ≡ breaks_lines (top_in top.now) }
{
    !(is_line_list(&top.otu3_in)
        && is_line_list(&top.otu3_out)
        && is_line_list(&top.scrambled_in)
        && is_line_list(&top.scrambled_out))
}

/// Whether a line, a client or a port is out of range, or neither end is a line.
pub(crate) fn breaks_place(top: &Top, entry: &Entry) -> bool
    ensures { result ≡ breaks_place (top_in top.now) (entry_in entry.now) }
{
    let from = entry.from();
    let to = entry.to();
    !(is_placed(&top.otu3_in, &from)
        && is_placed(&top.otu3_out, &to)
        && (is_line(&from) || is_line(&to)))
}

/// Whether the end is at a line.
pub(crate) fn is_line(end: &End) -> bool
    ensures { result ≡ is_line (end_in end.now) }
{
    matches!(end, End::Line(_, _, _, _))
}

/// Whether the end is at a client.
pub(crate) fn is_client(end: &End) -> bool
    ensures { result ≡ is_client (end_in end.now) }
{
    matches!(end, End::Client(_))
}

// Whether the end's numbers are in range, where these lines are OTU3.
fn is_placed(otu3: &Numbers, end: &End) -> bool
    ensures { result ≡ is_placed (numbers_in otu3.now) (end_in end.now) }
{
    match end {
        End::Line(line, port, _, _) => is_within(*line, 0, LINES as u128 - 1)
            && is_within(*port, 1, u128::from(otu3.line_kind(*line).slots())),
        End::Client(client) => is_within(*client, 0, CLIENTS as u128 - 1),
        End::Signal(_) => true,
    }
}
