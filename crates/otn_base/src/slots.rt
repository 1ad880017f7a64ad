// A list of tributary slots.
ghost use Rattle.std.specs.Prelude.{◌≡◌, ◌==◌, ◌&&◌, ◌-◌, ◌<◌, ◌≤◌, ◌↔◌, ℕ, Contains, IfSome, IsSome, IsTrue, Some, true, length, slice_get, slice_index};
ghost use Rattle.otn_base.specs.LineSlots.{slots_of};
ghost use Rattle.otn_base.specs.SlotList.{IsSlotList};
ghost use Rattle.otn_base.specs.declared.limits.TheConstants.{OTU2_SLOTS};

use crate::LineKind;
use crate::limits::OTU2_SLOTS;
use arrayvec::ArrayVec;
use std::marker::Model;

/// The tributary slots that one ODTU takes on a line, in rising order: each 1 to 8 on an OTU2, 1 to 32 on
/// an OTU3 (G.709 clause 19.1.4). Contracts see it as the kind of the line and the list of their numbers.
#[derive(Clone, Debug, PartialEq, Eq, Drop)]
pub struct Slots {
    kind: LineKind,
    list: ArrayVec<u8, 32>,
}

impl Model for Slots {
    ghost use Rattle.otn_base.specs.LineSlots.{LineSlots, slots_of};
    ghost use Rattle.otn_base.specs.SlotList.{IsSlotList};

    ghost Value = { LineSlots };

    ghost view = { λ s. record { kind = s.kind; list = s.list.items } };

    ghost invariant = { λ s. IsSlotList (slots_of s.kind) s.list.items };

    ghost inverse = { λ s. record { kind = s.kind; list = record { items = s.list } } };
}

impl Slots {
    /// The slots of this list on a line of this kind. None where it is empty, has a number outside 1 to
    /// the number of the line's slots, or does not rise strictly.
    pub fn new(list: &[u8], kind: LineKind) -> Option<Slots>
        ensures accepted { IsSome result ↔ IsSlotList (slots_of kind) list.now }
        ensures same { IfSome result (λ slots. slots ≡ record { kind = kind; list = list.now }) }
    {
        if !is_slot_list(list, kind.slots()) {
            return None;
        }
        let mut slots = ArrayVec::new();
        match slots.try_extend_from_slice(list) {
            Ok(()) => Some(Slots { kind, list: slots }),
            Err(_) => None,
        }
    }

    /// The kind of the line.
    pub fn kind(&self) -> LineKind
        ensures kind { result ≡ self.now.kind }
        ensures list { IsSlotList (slots_of result) self.now.list }
    {
        self.kind
    }

    /// How many slots there are, M of GMP: 1 to the number of the line's slots.
    #[tactic(auto, using(crate::proofs::RisingSlots::few))]
    pub fn count(&self) -> u32
        ensures count { result ≡ length self.now.list }
        ensures list { IsSlotList (slots_of self.now.kind) self.now.list }
        ensures few { length self.now.list ≤ slots_of self.now.kind }
    {
        self.list.len() as u32
    }

    /// Whether this is one slot of an OTU2 alone.
    pub fn is_otu2_slot(&self) -> bool
        ensures value { result ≡ (slots_of self.now.kind == OTU2_SLOTS && length self.now.list == 1) }
        ensures line { result ≡ true → slots_of self.now.kind ≡ OTU2_SLOTS }
        ensures one { result ≡ true → length self.now.list ≡ 1 }
    {
        self.kind().slots() as usize == OTU2_SLOTS && self.count() == 1
    }

    /// The greatest slot, in whose frame of a multiframe the justification bytes of the ODTU stand.
    pub fn last(&self) -> u8
        ensures last { slice_get self.now.list (length self.now.list - 1) ≡ Some result }
        ensures list { IsSlotList (slots_of self.now.kind) self.now.list }
    {
        let list = self.list.as_slice();
        list[list.len() - 1]
    }

    /// Whether slot `k` is one of them.
    pub fn has(&self, k: u8) -> bool
        ensures has { IsTrue result ↔ Contains self.now.list k }
        ensures list { IsSlotList (slots_of self.now.kind) self.now.list }
    {
        self.list.as_slice().contains(&k)
    }

    /// The numbers of the slots.
    pub fn as_slice(&self) -> &[u8]
        ensures bytes { result.now ≡ self.now.list }
        ensures list { IsSlotList (slots_of self.now.kind) result.now }
    {
        self.list.as_slice()
    }
}

// Whether the list is not empty, has numbers of 1 to `slots` alone, and rises strictly.
fn is_slot_list(list: &[u8], slots: u8) -> bool
    ensures { IsTrue result ↔ IsSlotList slots list.now }
{
    !list.is_empty()
        && list.iter().all(|&slot| 1 <= slot && slot <= slots)
        && list.windows(2).all(|pair| pair[0] < pair[1])
}
