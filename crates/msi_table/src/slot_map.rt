// Which tributary port uses each slot of a line.
ghost use Rattle.std.specs.Prelude.{◌≡◌, ◌<◌, ◌≤◌, ℕ, All, Contains, length, slice_index};
ghost use Rattle.otn_base.specs.LineSlots.{IsSlotNumber, slots_of};
ghost use Rattle.otn_base.specs.declared.limits.TheConstants.{MOST_SLOTS as most_slots};
ghost use Rattle.msi_table.specs.Psi.{IsGiven, port_at, psi_of, slot_msi};

use crate::watch::ODTU_TS;
use otn_base::limits::MOST_SLOTS;
use otn_base::{LineKind, Slots};
use std::marker::Model;

// PSI[0] of a line (G.709 clause 15.9.2.1: the payload type of an OPU2 with ODTU2.ts, or of an OPU3 with ODTU3.ts).
const PAYLOAD_TYPE: u8 = 0x21;

// The MSI byte of a free slot (G.709 clause 19.4.1).
const FREE: u8 = 0xC0;

/// The tributary ports that use the slots of a line; slots and ports are numbered from 1 to the number of the line's
/// slots. Contracts see it as the list of the ports of its slots from slot 1 on, 0 for a slot that is free: its length
/// is the number of the line's slots.
#[derive(Drop)]
pub struct SlotMap {
    kind: LineKind,
    ports: [u8; MOST_SLOTS],
}

impl Model for SlotMap {
    ghost use Rattle.std.specs.Prelude.{ℕ, List, ◌≤◌, All, take};
    ghost use Rattle.otn_base.specs.LineSlots.{slots_of};

    ghost Value = { List ℕ };

    ghost view = { λ m. take (slots_of m.kind) m.ports };

    ghost invariant = { λ m. All (λ port. port ≤ slots_of m.kind) m.ports };
}

impl SlotMap {
    /// A line of this kind on which every slot is free.
    pub fn new(kind: LineKind) -> SlotMap
        ensures free { (slot : ℕ) → port_at result slot ≡ 0 }
        ensures size { length result ≡ slots_of kind }
    {
        SlotMap {
            kind,
            ports: [0; MOST_SLOTS],
        }
    }

    /// How many slots the line has, 8 or 32.
    pub fn slots(&self) -> u8
        ensures size { result ≡ length self.now }
        ensures number { IsSlotNumber result }
    {
        self.kind.slots()
    }

    /// Gives free slots of a line of the same kind to a tributary port, 1 to the number of the line's slots.
    pub fn allot(&mut self, slots: &Slots, port: u8)
        requires kind { length self.old ≡ slots_of slots.now.kind }
        requires low { 1 ≤ port }
        requires high { port ≤ length self.old }
        requires free { (slot : ℕ) → Contains slots.now.list slot → port_at self.old slot ≡ 0 }
        ensures given { IsGiven slots.now.list port self.old self.new }
        ensures size { length self.new ≡ length self.old }
    {
        give(&mut self.ports, slots, port);
    }

    /// Frees slots of a line of the same kind.
    pub fn free(&mut self, slots: &Slots)
        requires kind { length self.old ≡ slots_of slots.now.kind }
        ensures given { IsGiven slots.now.list 0 self.old self.new }
        ensures size { length self.new ≡ length self.old }
    {
        give(&mut self.ports, slots, 0);
    }

    /// The tributary port that uses a slot, 0 where the slot is free; both are at most the number of the line's slots.
    pub fn port(&self, slot: u8) -> u8
        requires low { 1 ≤ slot }
        requires high { slot ≤ length self.now }
        ensures port { result ≡ port_at self.now slot }
        ensures bound { result ≤ length self.now }
    {
        self.ports[slot as usize - 1]
    }
}

/// The PSI byte of a line in the frame with this MFAS.
pub fn psi_byte(mfas: u8, map: &SlotMap) -> u8
    ensures { result ≡ psi_of map.now mfas }
{
    let slots = map.slots();
    if mfas == 0 {
        return PAYLOAD_TYPE;
    }
    if mfas == 1 || mfas > slots + 1 {
        return 0;
    }
    msi_of(map.port(mfas - 1))
}

// The MSI byte of a slot that this port uses, or of a free slot.
fn msi_of(port: u8) -> u8
    requires { port ≤ most_slots }
    ensures { result ≡ slot_msi port }
{
    if port == 0 {
        return FREE;
    }
    ODTU_TS + (port - 1)
}

// Writes a port at these slots; the others stay.
fn give(ports: &mut [u8], slots: &Slots, port: u8)
    requires size { length ports.old ≡ most_slots }
    ensures given { IsGiven slots.now.list port ports.old ports.new }
    ensures within { (slot : ℕ) → Contains slots.now.list slot → (1 ≤ slot) × (slot ≤ slots_of slots.now.kind) }
    ensures bound { (most : ℕ) → port ≤ most → All (λ port. port ≤ most) ports.old
        → All (λ port. port ≤ most) ports.new }
{
    give_each(ports, slots.as_slice(), port);
}

// The same, for the numbers of the slots.
fn give_each(ports: &mut [u8], slots: &[u8], port: u8)
    requires slots { All (λ slot. (1 ≤ slot) × (slot ≤ length ports.old)) slots.now }
    ensures given { IsGiven slots.now port ports.old ports.new }
    ensures bound { (most : ℕ) → port ≤ most → All (λ port. port ≤ most) ports.old
        → All (λ port. port ≤ most) ports.new }
{
    for slot in slots {
        ports[*slot as usize - 1] = port;
    }
}
