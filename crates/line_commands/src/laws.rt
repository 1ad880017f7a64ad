// Laws over what `slot` and `pull` answer for, and over what they write.
ghost use Rattle.std.specs.Prelude.{◌≡◌, ◌≢◌, ◌<◌, ◌-◌, ◌%◌, ◌^◌, ◌↔◌, ℕ, List, length, min};
ghost use Rattle.otn_base.specs.SlotList.{IsSlotList};
ghost use Rattle.otn_base.specs.declared.limits.TheConstants.{LINE_FRAME_BYTES, OTU2_SLOTS};
ghost use Rattle.port_base.specs.Views.{Dead};
ghost use Rattle.tributary_model.specs.Places.{Tributary};
ghost use Rattle.device_model.specs.Agreements.{AgreeOnTributary};
ghost use Rattle.command_base.specs.AnswerWords.{Reports};
ghost use Rattle.command_base.specs.Device.{Device, line_zero};
ghost use Rattle.command_base.specs.declared.status.Status.{Status};
ghost use Rattle.line_commands.specs.Agreements.{AgreeOnSlot};
ghost use Rattle.line_commands.specs.LineAnswers.{PullRan, SlotRan};
ghost use Rattle.line_commands.specs.OfAvailable.{OfAllAvailable, OfAvailable, OfRead};
ghost use Rattle.line_commands.specs.PullCarried.{BeginsWithWhatIsCarried, IsTheWholeGroups, HasWhatIsCarriedAfterDamage};
ghost use Rattle.line_commands.specs.PullDamaged.{WritesAsIfRepeated};
ghost use Rattle.line_commands.specs.PullReport.{LeavesBytes, StoppedInTurn, pull_report, tributary};
ghost use Rattle.tributary_line.specs.TurnsDone.{bytes_read};
ghost use Rattle.line_commands.specs.SlotReport.{HasBytesBehind, StoppedInFrame, most_read_of_line, slot_report};

/// `slot`, by all bytes that line input 0 had to give, where it tells them: they are what is written of (`report`), and
/// Unfinished is the answer exactly where bytes stand behind the whole frames that are used (`unfinished`); by the
/// place's number of bytes the same holds of any line (`counted`), and as many bytes are taken as there are, of the
/// most frames and one byte more at most (`took`). After ReportFault the last frame taken is the one whose slot was
/// being written (`stopped`).
pub fn slot_of_given()
    ensures report { (slot : ℕ) → OfAvailable (SlotRan slot) (λ old new answer available.
        Reports answer old.report.got new.report.got (slot_report slot available)) }
    ensures unfinished { (slot : ℕ) → OfAllAvailable (SlotRan slot) (λ old new answer available.
        (answer ≡ Status.Unfinished) ↔ (((line_zero new).state ≢ Dead) × HasBytesBehind (length available))) }
    ensures counted { (slot : ℕ) (old new : Device) (answer : Status) → SlotRan slot old new answer
        → answer ≢ Status.ReportFault
        → (line_zero new).number < 2 ^ 64 - 1
        → (answer ≡ Status.Unfinished) ↔ (((line_zero new).state ≢ Dead)
        × HasBytesBehind ((line_zero new).number - (line_zero old).number)) }
    ensures took { (slot : ℕ) → OfAllAvailable (SlotRan slot) (λ old new answer available.
        (line_zero new).number < 2 ^ 64 - 1
        → (line_zero new).number - (line_zero old).number ≡ min (length available) most_read_of_line) }
    ensures stopped { (slot : ℕ) → OfRead (SlotRan slot) (λ old new available read.
        StoppedInFrame slot available read old.report.got new.report.got) }
{}

/// `pull`, likewise: Unfinished is the answer exactly where bytes stand behind the frames that its turns wanted
/// (`unfinished`), or where a part of a frame was taken (`counted`). After ReportFault the last turn carried out is the
/// one whose bytes were being written (`stopped`).
pub fn pull_of_given()
    ensures report { (own : Tributary) → OfAvailable (PullRan own) (λ old new answer available.
        Reports answer old.report.got new.report.got (pull_report own available)) }
    ensures unfinished { (own : Tributary) → OfAllAvailable (PullRan own) (λ old new answer available.
        (answer ≡ Status.Unfinished) ↔ (((line_zero new).state ≢ Dead) × LeavesBytes available)) }
    ensures counted { (own : Tributary) (old new : Device) (answer : Status) → PullRan own old new answer
        → answer ≢ Status.ReportFault
        → (line_zero new).number < 2 ^ 64 - 1
        → (answer ≡ Status.Unfinished) ↔ (((line_zero new).state ≢ Dead)
        × (0 < ((line_zero new).number - (line_zero old).number) % LINE_FRAME_BYTES)) }
    ensures took { (own : Tributary) → OfAllAvailable (PullRan own) (λ old new answer available.
        (line_zero new).number < 2 ^ 64 - 1
        → (line_zero new).number - (line_zero old).number ≡ bytes_read OTU2_SLOTS available) }
    ensures stopped { (own : Tributary) → OfRead (PullRan own) (λ old new available read.
        (t : ℕ) × StoppedInTurn own available read t old.report.got new.report.got) }
{}

/// Two worlds: lines that have as many whole frames, and the same bytes in a slot's payload columns, give
/// `slot` the same report, whatever their other bytes are.
pub fn slot_two_worlds()
    ensures { (slot : ℕ) (one other : List ℕ) → AgreeOnSlot slot one other
        → slot_report slot one ≡ slot_report slot other }
{}

/// Two worlds: lines that have as many whole frames with the same MFAS bytes, and in each multiframe the same bytes at
/// a tributary's own places, give `pull` the same report, whatever their other bytes are: other slots and what their
/// messages and MSI bytes say, overhead, lead-in, FEC.
pub fn pull_two_worlds()
    ensures { (port : ℕ) (slots one other : List ℕ) → IsSlotList OTU2_SLOTS slots
        → AgreeOnTributary (tributary port slots) one other
        → pull_report (tributary port slots) one ≡ pull_report (tributary port slots) other }
{}

/// Intact carriage, of a line on which a tributary carries a client's bytes in steady numbers: from turn 1 on, `pull`
/// writes exactly these bytes from the first on, and where the line ends after these turns, all whole groups that came.
/// Whatever came before such turns, it writes exactly these bytes from the third turn on after one that says its number
/// without a former one.
pub fn pull_of_carried()
    ensures begins { BeginsWithWhatIsCarried }
    ensures whole { IsTheWholeGroups }
    ensures healed { HasWhatIsCarriedAfterDamage }
{}

/// One damaged message, while the sink is Up and on a line where no three in a row of a tributary are damaged, is as
/// the pair of the turn before, said again: `pull` writes the same.
pub fn pull_of_one_damaged()
    ensures { WritesAsIfRepeated }
{}
