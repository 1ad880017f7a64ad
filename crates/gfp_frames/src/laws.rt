// Laws of the definitions that makers and readers meet.
ghost use Rattle.std.specs.Prelude.{◌≡◌, ℕ, ◌/◌, ◌<◌, ◌^◌, List, ◌∷◌, ◌++◌, Bool, length, take};
ghost use Rattle.crc_small.specs.Header.{IsRightHeader, IsWithinOneBit};
ghost use Rattle.gfp_scrambler.specs.BitList.{AreBytes, IsScrambled, IsDescrambled};
ghost use Rattle.gfp_frames.specs.CoreHeader.{near_pli};
ghost use Rattle.gfp_frames.specs.GfpText.{Frame, Idle, areas_of, laid_out, text_of, gfp_text, stream_frames};
ghost use Rattle.gfp_frames.specs.Maker.{OfMade};
ghost use Rattle.gfp_frames.specs.Delineation.{sync_areas};
ghost use Rattle.gfp_frames.specs.Delivered.{joined, cut_as, packets_in, areas_in, delivered};
ghost use Rattle.gfp_frames.specs.Places.{AreFramesInSync, areas_at};
ghost use Rattle.gfp_frames.specs.Within.{packets_within, areas_within, CanCarryAll};

/// Of any first bytes of a stream exactly the packets are delivered, in order, whose frames are whole in
/// them: packets of 1 to 65,527 bytes, each with FCS or without.
pub fn packets_arrive()
    ensures frames { (frames : List Frame) (n : ℕ) → CanCarryAll frames →
        delivered (take n (text_of (Idle ∷ frames))) ≡ packets_within n (Idle ∷ frames) }
    ensures stream { (packets : List (List ℕ)) (fcs : Bool) (n : ℕ) → CanCarryAll (stream_frames packets fcs n) →
        delivered (gfp_text packets fcs n) ≡ packets_within n (stream_frames packets fcs n) }
{}

/// Of any first bytes of a stream exactly the plain payload areas are found, in order, whose frames are whole in them.
pub fn areas_arrive()
    ensures { (frames : List Frame) (n : ℕ) → CanCarryAll frames →
        areas_in (take n (text_of (Idle ∷ frames))) ≡ areas_within n (Idle ∷ frames) }
{}

/// The areas of a list of bytes stay its areas, whatever comes after it.
pub fn areas_stay()
    ensures { (bytes more : List ℕ) → (rest : List (List ℕ)) × (areas_in (bytes ++ more) ≡ areas_in bytes ++ rest) }
{}

/// What a maker gives is the client's stream, where packets are offered without a gap after the first
/// idle frame, and then none.
pub fn made_is_the_stream()
    ensures { (packets : List (List ℕ)) (fcs : Bool) (idles : ℕ) → OfMade (stream_frames packets fcs idles)
        (λ emitted. emitted ≡ gfp_text packets fcs (length emitted)) }
{}

/// The areas that are delivered from are, in order, those of the frames in sync that lie whole in the
/// list, by the places of their headers.
pub fn frames_stand_by_place()
    ensures { (bytes : List ℕ) → (frames : List (ℕ × ℕ))
        × (AreFramesInSync bytes frames × (sync_areas bytes ≡ areas_at bytes frames)) }
{}

/// In SYNC the PLI that counts is that of the one right header within one bit, and there is none
/// exactly where no right header lies that near.
pub fn one_wrong_bit_is_corrected()
    ensures corrected { (header right : ℕ) → header < 2 ^ 32 → IsRightHeader right → IsWithinOneBit header right →
        near_pli header ≡ Some (right / 2 ^ 16) }
    ensures refused { (header : ℕ) → header < 2 ^ 32
        → ((right : ℕ) → IsRightHeader right → ¬ IsWithinOneBit header right) →
        near_pli header ≡ None }
{}

/// The payload areas of a stream are one list of bits, on the way out and on the way in.
pub fn areas_are_one_list_of_bits()
    ensures made { (frames : List Frame) → AreBytes (areas_of frames) →
        (sent : List ℕ) × (IsScrambled (areas_of frames) sent × (text_of frames ≡ laid_out sent frames)) }
    ensures read { (bytes : List ℕ) → AreBytes (joined (sync_areas bytes)) →
        (plain : List ℕ) × (IsDescrambled (joined (sync_areas bytes)) plain × (delivered bytes ≡ packets_in (cut_as (sync_areas bytes) plain))) }
{}

/// What a list of bytes delivers stays delivered, whatever comes after it.
pub fn delivered_stays()
    ensures { (bytes more : List ℕ) → (rest : List (List ℕ)) × (delivered (bytes ++ more) ≡ delivered bytes ++ rest) }
{}
