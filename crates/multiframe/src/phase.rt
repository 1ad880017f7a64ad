// The multiframe alignment of a line: it hunts for a multiframe, or is locked on one.
ghost use Rattle.std.specs.Prelude.{◌≡◌, ◌↔◌, ◌+◌, ◌%◌, ◌<◌, ℕ, List, Some, None, IsTrue, IsSome, IsSomeAnd, IfSome, option_map, length};
ghost use Rattle.otn_base.specs.LineSlots.{IsSlotNumber, slots_of};
ghost use Rattle.multiframe.specs.LineTurns.{starts, wrong_count};

use otn_base::LineKind;
use otn_base::limits::MOST_SLOTS;
use std::marker::Model;

// A line that is locked: the first MFAS bytes of `taken` are those of the frames that were taken in this turn.
#[derive(Clone, Copy)]
struct Locked {
    expected: u8,
    taken: [u8; MOST_SLOTS],
    count: usize,
}

/// The multiframe alignment of a line of either kind (G.709 clause 15.6), of S frames a multiframe: as many as the line
/// has slots. It hunts, or it is locked: it expects an MFAS in the first frame of the turn and one more in each next
/// one, modulo 256, and takes those that come.
#[derive(Drop)]
pub struct Phase {
    kind: LineKind,
    locked: Option<Locked>,
}

impl Model for Phase {
    ghost use Rattle.std.specs.Prelude.{◌≤◌, option_map, take};
    ghost use Rattle.std.specs.Option.{ForSome};
    ghost use Rattle.otn_base.specs.LineSlots.{slots_of};
    ghost use Rattle.multiframe.specs.Alignment.{LinePhase};

    ghost Value = { LinePhase };

    ghost view = { λ p. record { kind = p.kind; alignment = option_map (λ l. record { expected = l.expected; taken = take l.count l.taken }) p.locked } };

    ghost invariant = { λ p. ForSome p.locked (λ l. l.count ≤ slots_of p.kind) };
}

/// Whether a multiframe of a line of this kind may begin with a frame of the first MFAS, where the next frame has the
/// second: the first is a multiple of the number of the line's slots, and the second is one more.
pub fn starts(first: u8, second: u8, kind: LineKind) -> bool
    ensures { result ≡ starts (slots_of kind) first second }
{
    first % kind.slots() == 0 && second as u32 == first as u32 + 1
}

impl Phase {
    ghost use Rattle.multiframe.specs.Alignment.{aligned_at, with_frame, taken_of, PhaseEnds, EndsTurn};
    ghost use Rattle.multiframe.specs.LineTurns.{Lock};

    /// A line of this kind, which hunts.
    pub fn new(kind: LineKind) -> Phase
        ensures { result ≡ record { kind = kind; alignment = None } }
    {
        Phase { kind, locked: None }
    }

    /// The kind of the line.
    pub fn kind(&self) -> LineKind
        ensures { result ≡ self.now.kind }
    {
        self.kind
    }

    /// Whether the line hunts.
    pub fn hunting(&self) -> bool
        ensures { IsTrue result ↔ (self.now.alignment ≡ None) }
    {
        self.locked.is_none()
    }

    /// Locks on a multiframe that starts with a frame of this MFAS, a multiple of the number of the line's slots. No
    /// frame of it was taken yet.
    pub fn lock(&mut self, mfas: u8)
        requires hunting { self.old.alignment ≡ None }
        requires first { mfas % slots_of self.old.kind ≡ 0 }
        ensures { self.new ≡ record { kind = self.old.kind; alignment = Some (aligned_at mfas) } }
    {
        self.locked = Some(Locked {
            expected: mfas,
            taken: [0; MOST_SLOTS],
            count: 0,
        });
    }

    /// The MFAS that is expected in frame n of the turn, from 0.
    pub fn expected(&self, n: u8) -> u8
        requires locked { IsSome self.now.alignment }
        requires frame { n < slots_of self.now.kind }
        ensures { IfSome self.now.alignment (λ a. result ≡ (a.expected + n) % 256) }
    {
        match &self.locked {
            Some(locked) => locked.expected.wrapping_add(n),
            None => 0,
        }
    }

    /// Takes the MFAS of the next frame of the turn.
    pub fn take(&mut self, mfas: u8)
        requires { IsSomeAnd self.old.alignment (λ a. length a.taken < slots_of self.old.kind) }
        ensures { self.new ≡ record {
          kind = self.old.kind;
          alignment = option_map (with_frame mfas) self.old.alignment;
        } }
    {
        if let Some(locked) = &mut self.locked {
            locked.taken[locked.count] = mfas;
            locked.count += 1;
        }
    }

    /// Ends the turn, and says whether it has a multiframe: all of its frames were taken, and at most half of them had
    /// another MFAS than the expected one. Where more had, the line hunts. Where not all were taken, it stays
    /// locked, expects the same MFAS again, and has taken none.
    pub fn end_turn(&mut self) -> bool
        ensures turn { PhaseEnds self.old result self.new }

        // where the frames of a locked turn of a line were taken, this ends that turn
        ensures line { (ms : List ℕ) (lock : Lock)
            → self.old.alignment ≡ Some (taken_of (slots_of self.old.kind) ms lock)
            → EndsTurn (slots_of self.old.kind) ms lock result self.new.alignment }
    {
        self.close()
    }

    fn close(&mut self) -> bool
        ensures { PhaseEnds self.old result self.new }
    {
        let frames = self.frames();
        let Some(locked) = self.locked else {
            return false;
        };
        if locked.count < frames {
            self.locked = Some(Locked { count: 0, ..locked });
            return false;
        }
        if wrong_among(locked.expected, &locked.taken[..frames]) > frames / 2 {
            self.locked = None;
            return false;
        }
        self.locked = Some(Locked {
            expected: locked.expected.wrapping_add(frames as u8),
            count: 0,
            ..locked
        });
        true
    }

    // How many frames a multiframe has.
    fn frames(&self) -> usize
        ensures frames { result ≡ slots_of self.now.kind }
        ensures number { IsSlotNumber result }
    {
        self.kind.slots() as usize
    }
}

// How many MFAS bytes, those of frames in a row, differ from the expected ones.
fn wrong_among(expected: u8, taken: &[u8]) -> usize
    ensures { result ≡ wrong_count expected taken.now }
{
    let mut wrong = 0;
    let mut next = expected;
    for mfas in taken {
        if *mfas != next {
            wrong += 1;
        }
        next = next.wrapping_add(1);
    }
    wrong
}
