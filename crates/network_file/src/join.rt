// The file of a network with the plans of its nodes: the rules 11 and 12.
ghost use Rattle.std.specs.Prelude.{◌≡◌, ◌↔◌, None, length};
ghost use Rattle.network_laws.specs.Networks.{IsNetwork};
ghost use Rattle.device_model.specs.Entries.{form_in, form_out};
ghost use Rattle.plan_file.specs.Places.{first, places};
ghost use Rattle.network_file.specs.Joining.{are_two_forms, has_two_forms, is_refused, is_same_form, is_same_kind, joining_fault, network_of};
ghost use Rattle.network_file.specs.Sound.{IsSound};

use crate::error::NetworkError;
use crate::file::NetworkFile;
use crate::lists::item;
use crate::place::Place;
use network_parts::FibreEnds;
use otn_base::{LineKind, PortName};
use plan_file::Plan;
use turn_pieces::{has_number, kind_by, uses};

/// The first of the rules 11 and 12 that is broken, at its first place: a plan is refused, or the ends of a fibre, both
/// in use, are of two forms. The plans are those of the nodes, in the order of the file. None exactly where an accepted
/// file with these plans is a network.
pub fn fault(file: &NetworkFile, plans: &[Plan]) -> Option<(NetworkError, Place)>
    ensures first { result ≡ joining_fault file.now plans.now }
    ensures network { IsSound file.now → length plans.now ≡ length file.now.nodes
        → (result ≡ None) ↔ IsNetwork (network_of file.now plans.now) }
{
    first_fault(file, plans)
}

// The first of the two rules that is broken, at its first place.
fn first_fault(file: &NetworkFile, plans: &[Plan]) -> Option<(NetworkError, Place)>
    ensures { result ≡ joining_fault file.now plans.now }
{
    match first_refused(plans) {
        Some(number) => Some((NetworkError::PlanRefused, Place::Node(number))),
        None => match first_of_two_forms(file.fibres.as_slice(), plans) {
            Some(number) => Some((NetworkError::OtherForm, Place::Fibre(number))),
            None => None,
        },
    }
}

// The number of the first plan that is refused.
#[tactic(auto, using(plan_file::proofs::Steps::singles))]
fn first_refused(plans: &[Plan]) -> Option<usize>
    ensures { result ≡ first (places is_refused plans.now) }
{
    for i in 0..plans.len() {
        if is_refused(item(plans, i)) {
            return Some(i + 1);
        }
    }
    None
}

fn is_refused(plan: &Plan) -> bool
    ensures { result ≡ is_refused plan.now }
{
    match plan.fault() {
        Some(_) => true,
        None => false,
    }
}

// The number of the first fibre whose ends, both in use, are of two forms.
#[tactic(auto, using(plan_file::proofs::Steps::singles))]
fn first_of_two_forms(fibres: &[FibreEnds], plans: &[Plan]) -> Option<usize>
    ensures { result ≡ first (places (has_two_forms plans.now) fibres.now) }
{
    for i in 0..fibres.len() {
        if has_two_forms(plans, item(fibres, i)) {
            return Some(i + 1);
        }
    }
    None
}

fn has_two_forms(plans: &[Plan], fibre: &FibreEnds) -> bool
    ensures { result ≡ has_two_forms plans.now fibre.now }
{
    match plans.get(fibre.from_node()) {
        Some(plan) => match plans.get(fibre.to_node()) {
            Some(next) => are_two_forms(fibre, plan, next),
            None => false,
        },
        None => false,
    }
}

fn are_two_forms(fibre: &FibreEnds, plan: &Plan, next: &Plan) -> bool
    ensures { result ≡ are_two_forms fibre.now plan.now next.now }
{
    uses(plan, PortName::LineOut(fibre.from_line()))
        && uses(next, PortName::LineIn(fibre.to_line()))
        && !is_same_form(fibre, plan, next)
}

// Whether the two ends are of one kind, and both scrambled or neither.
fn is_same_form(fibre: &FibreEnds, plan: &Plan, next: &Plan) -> bool
    ensures { result ≡ is_same_form (form_in next.now fibre.now.into) (form_out plan.now fibre.now.out) }
{
    let kind = kind_by(next.otu3_in.as_slice(), fibre.to_line());
    let other = kind_by(plan.otu3_out.as_slice(), fibre.from_line());
    let scrambled = has_number(next.scrambled_in.as_slice(), fibre.to_line());
    let mask = has_number(plan.scrambled_out.as_slice(), fibre.from_line());
    is_same_kind(kind, other) && scrambled == mask
}

fn is_same_kind(kind: LineKind, other: LineKind) -> bool
    ensures { result ≡ is_same_kind kind other }
{
    match (kind, other) {
        (LineKind::Otu2, LineKind::Otu2) | (LineKind::Otu3, LineKind::Otu3) => true,
        _ => false,
    }
}
