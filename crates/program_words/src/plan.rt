// The plan's file, read before any other is opened.
ghost use Rattle.std.specs.Prelude.{◌≡◌, ◌↔◌, true, false, IfOk, IfSome, IsOk, IsTrue, MatchOption, vec_len};
ghost use Rattle.port_base.specs.Bytes.{HasFailed, before};
ghost use Rattle.port_base.specs.PortViews.{source_view};
ghost use Rattle.check_command.specs.PlanReading.{IsAll, most_read};
ghost use Rattle.command_words.specs.Words.{texts};
ghost use Rattle.plan_file.specs.Answer.{plan_of_text};
ghost use Rattle.program_words.specs.Files.{ReadsPlan};
ghost use Rattle.program_words.specs.PlanFile.{GivesPlan, IsAccepted};

use crate::files::reads_plan;
use otn_base::Memory;
use otn_base::limits::MOST_PLAN_BYTES;
use otn_ports::{ListedSource, Reading, Source, read_whole};
use plan_file::{NoPlan, Plan};
use std::alloc::{AllocError, Global};

/// The text of the plan, of 1,048,576 bytes at most and one more that shows that it is longer. None where a read of it
/// failed.
pub fn plan_text<P: Source>(alloc: Global, plan: &mut P) -> Result<Option<Vec<u8>>, Memory>
    ensures bytes { IfOk result (λ text. IfSome text (λ bytes. P.left plan.old
        ≡ before bytes.items (P.left plan.new))) }
    ensures all { IfOk result (λ text. IfSome text (λ bytes. IsAll bytes.items (source_view P.Source plan.new))) }
    ensures failed { IfOk result (λ text. MatchOption text (HasFailed (P.faults plan.old) (P.faults plan.new))
        (λ _. P.faults plan.new ≡ P.faults plan.old)) }
{
    let mut room = plan_room(alloc)?;
    match read_whole(plan, &mut room) {
        (Reading::Lost, _) => Ok(None),
        (_, count) => Ok(Some(Vec::from_slice(alloc, &room[..count])?)),
    }
}

// Room for the longest plan and one byte more.
fn plan_room(alloc: Global) -> Result<Vec<u8>, AllocError>
    ensures { IfOk result (λ room. vec_len room ≡ most_read) }
{
    vec![in alloc; 0; MOST_PLAN_BYTES + 1]
}

/// Gives this text. Where there is none it fails at its first read.
pub fn plan_source(alloc: Global, text: Option<Vec<u8>>) -> Result<ListedSource, Memory>
    ensures { IfOk result (GivesPlan text) }
{
    match text {
        Some(text) => Ok(ListedSource::new(text, Vec::new(alloc), usize::MAX)),
        None => Ok(ListedSource::new(Vec::new(alloc), [1u32].to_vec(alloc)?, 1)),
    }
}

/// Whether the files of the words' command are opened and made: those of a command that reads the plan only where its
/// text is an accepted plan, so that a plan that is missing, unreadable or refused leaves all files as they are.
pub fn opens_files(alloc: Global, words: &[String], text: &Option<Vec<u8>>) -> Result<bool, Memory>
    ensures accepted { IfOk result (λ opens. opens ≡ true → ReadsPlan (texts words.now) → IsAccepted text.now) }
    ensures refused { IfOk result (λ opens. opens ≡ false → ReadsPlan (texts words.now) × (IsAccepted text.now → ⊥)) }
{
    if !reads_plan(words) {
        return Ok(true);
    }
    match text {
        Some(text) => is_plan(alloc, text.as_slice()),
        None => Ok(false),
    }
}

// Whether the text is an accepted plan.
fn is_plan(alloc: Global, text: &[u8]) -> Result<bool, Memory>
    ensures { IfOk result (λ accepted. IsTrue accepted ↔ IsOk (plan_of_text text.now)) }
{
    match Plan::read(alloc, text) {
        Ok(_) => Ok(true),
        Err(NoPlan::Refused(..)) => Ok(false),
        Err(NoPlan::Memory) => Err(Memory),
    }
}
