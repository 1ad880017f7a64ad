// The data rule at one group, and how many data groups the first groups have.
ghost use Rattle.std.specs.Prelude.{◌≡◌, ◌+◌, ◌*◌, ◌/◌, ◌≤◌, ◌↔◌, IsTrue};
ghost use Rattle.gmp_rule.specs.DataRule.{IsData, data_count};
ghost use Rattle.otn_base.specs.declared.limits.TheConstants.{GROUPS};

use crate::ALL;

/// Whether group `j` of a multiframe, 1 to 15,232, carries data where `c` of its groups do
/// (G.709 Annex D).
pub fn is_data(j: u32, c: u32) -> bool
    requires first { 1 ≤ j }
    requires last { j ≤ GROUPS }
    requires cm { c ≤ GROUPS }
    ensures { IsTrue result ↔ IsData c j }
{
    j * c % ALL < c
}

/// How many of the groups 1 to `j` carry data where `c` of all 15,232 do: the law of the rule is that
/// these are the whole part of `j * c / 15232`.
#[tactic(auto, using(crate::proofs::CountLaw::count_law))]
pub fn data_groups(j: u32, c: u32) -> u32
    requires last { j ≤ GROUPS }
    requires cm { c ≤ GROUPS }
    ensures count { result ≡ data_count c j }
    ensures quotient { result ≡ j * c / GROUPS }
{
    j * c / ALL
}
