// The watches over the slots of a line.
ghost use Rattle.std.specs.Prelude.{◌≡◌, ℕ, ◌≤◌, List, [], ◌∷◌, ◌++◌, ◌==◌, if◌then◌else◌, All, length};
ghost use Rattle.std.specs.List.{list_any};
ghost use Rattle.otn_base.specs.declared.limits.TheConstants.{MOST_SLOTS};
ghost use Rattle.msi_table.specs.Marks.{is_marked};
ghost use Rattle.tributary_model.specs.Stretches.{bytes_of};
ghost use Rattle.trib_sink.specs.Watching.{Watched, AreOfSlots};

use msi_table::MsiWatch;

/// Takes the MSI bytes that came in a turn, each with its slot.
pub(crate) fn take_all(watches: &mut [MsiWatch], msi: &[(u8, u8)])
    requires watches { length watches.old ≡ MOST_SLOTS }
    requires slots { AreOfSlots msi.now }
    ensures { (port : ℕ) (read : ℕ → List ℕ) → Watched port read watches.old
        → Watched port (λ k. read k ++ bytes_of k msi.now) watches.new }
{
    for pair in msi {
        take_one(watches, pair.0, pair.1);
    }
}

// Takes the MSI byte of one slot.
fn take_one(watches: &mut [MsiWatch], slot: u8, byte: u8)
    requires watches { length watches.old ≡ MOST_SLOTS }
    requires low { 1 ≤ slot }
    requires high { slot ≤ MOST_SLOTS }
    ensures { (port : ℕ) (read : ℕ → List ℕ) → Watched port read watches.old
        → Watched port (λ k. read k ++ (if slot == k then byte ∷ [] else [])) watches.new }
{
    let watch = &mut watches[slot as usize - 1];
    watch.take(byte);
}

/// Whether one of these slots is marked.
pub(crate) fn any_marked(watches: &[MsiWatch], slots: &[u8]) -> bool
    requires watches { length watches.now ≡ MOST_SLOTS }
    requires slots { All (λ k. (1 ≤ k) × (k ≤ MOST_SLOTS)) slots.now }
    ensures { (port : ℕ) (read : ℕ → List ℕ) → Watched port read watches.now
        → result ≡ list_any (λ k. is_marked port (read k)) slots.now }
{
    for k in slots {
        let watch = &watches[*k as usize - 1];
        if watch.marked() {
            return true;
        }
    }
    false
}
