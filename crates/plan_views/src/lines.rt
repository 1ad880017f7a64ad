// The forms of a plan's lines.
ghost use Rattle.std.specs.Prelude.{◌≡◌, ◌==◌};
ghost use Rattle.std.specs.List.{list_any};
ghost use Rattle.device_model.specs.Entries.{kind_by};
ghost use Rattle.plan_views.specs.PlanViews.{form_by};

use crate::side::Side;
use otn_base::LineKind;
use plan_file::Plan;

/// The kind of a line of this side.
pub(crate) fn kind_of(plan: &Plan, side: Side, line: u8) -> LineKind
    ensures { result ≡ (form_by plan.now side line).kind }
{
    match side {
        Side::In => kind_by(plan.otu3_in.as_slice(), line),
        Side::Out => kind_by(plan.otu3_out.as_slice(), line),
    }
}

/// Whether it is scrambled.
pub(crate) fn is_scrambled(plan: &Plan, side: Side, line: u8) -> bool
    ensures { result ≡ (form_by plan.now side line).scrambled }
{
    match side {
        Side::In => has_number(plan.scrambled_in.as_slice(), line),
        Side::Out => has_number(plan.scrambled_out.as_slice(), line),
    }
}

// The kind of a line, where these are OTU3.
fn kind_by(otu3: &[u8], line: u8) -> LineKind
    ensures { result ≡ kind_by otu3.now line }
{
    if has_number(otu3, line) {
        LineKind::Otu3
    } else {
        LineKind::Otu2
    }
}

// Whether the number is in the list.
fn has_number(list: &[u8], number: u8) -> bool
    ensures { result ≡ list_any (λ n. n == number) list.now }
{
    for n in list {
        if *n == number {
            return true;
        }
    }
    false
}
