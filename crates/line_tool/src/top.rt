// The top call of the program.
ghost use Rattle.std.specs.Prelude.{◌≡◌, ◌≢◌, ◌↔◌};
ghost use Rattle.line_tool.specs.Answers.{Answers, LeavesBays, LeavesChooser, LeavesPlan};
ghost use Rattle.command_base.specs.Device.{Stays, device};
ghost use Rattle.command_base.specs.AnswerWords.{IsRefusal};
ghost use Rattle.command_words.specs.Words.{IsForm, IsNoForm, texts};
ghost use Rattle.command_words.specs.declared.words.Command.{Command};

use bundle_command::bundle;
use check_command::{check_plan, status_of_check};
use command_base::{Status, status_of};
use command_words::{Command, command_of};
use line_commands::{write_pull, write_slot};
use port_base::{Chooser, Rack, Sink, Source};
use protect_selector::protect;
use run_command::{run_plan, status_of_run};
use std::alloc::Global;
use trial_command::{run_trial, status_of_trial};
use unbundle_command::unbundle;

/// Does all that the program does: the command that the words say, over these places, with its output
/// to the report.
///
/// `slot K` writes the 1,904 payload bytes of tributary slot K, 1 to 8, row by row (G.709 clause 19.1), of each whole
/// frame that line input 0 gives, in order, of 131,072 frames at most; after that many it asks for one byte more. `pull
/// PORT K,K` writes what the sink of these slots and this tributary port emits in each turn of line input 0, one
/// multiframe each (G.709 clause 19.4 and Annex D), up to and with the turn in which the line ended, of 16,384 turns at
/// most; where by then the line has not ended, no read came to its end and it is not dead, it asks for one byte more. A
/// write of the report that fails ends either at once, with ReportFault. `check` reads the plan, and writes `plan
/// connections N turns T` where it is accepted. `run`, `run --order N` and `run --pcap` read the plan, and where it is
/// accepted carry it over the places, turn by turn, serving the ports that are ready in an order that the chooser says
/// (how often it is asked is proved, that it is followed is tested); then they write the report. `run` does not look at
/// N: its caller makes the chooser of it (`order_of`); nor does `run --pcap` look at its option: its caller makes the
/// places (`takes_captures`). A write of the report that fails ends them with ReportFault; else the answer is Cut where
/// a place that the plan uses is dead, Unfinished where a line has more or a client is not spent, and Done. `trial N`
/// draws packets for eight clients by the number, carries them through four nodes in a row over ports in memory, and
/// writes the check of each line file and what came back. It leaves all places as they were. `protect PORT K,K T N`
/// takes the tributary of these slots and this port of line inputs 0 and 1, working and protection, and puts the better
/// one on line output 0, in each of T turns; it writes a line for each switch. A write of the report that fails ends it
/// at once; else the answer is Cut where one of the three places is dead, Unfinished where a line has more than T turns
/// want, and Done. `bundle C,C T` puts the packets of these clients, as channels of a linear extension header, in an
/// ODU0 in slot 1 and port 1 of line output 0, in each of T turns; then it writes how many packets of each are begun,
/// with ReportFault where that fails. Else the answer is Cut where the line output or one of the clients is dead,
/// Unfinished where a client has more than is carried whole, and Done. `unbundle T` takes the tributary of slot 1 and
/// port 1 of line input 0 in each of T turns, and writes the packets that arrive on its channels 0 to 15 to the client
/// outputs of these numbers; then it writes how many packets and losses arrived on each, with ReportFault where that
/// fails. Else the answer is Cut where the line is dead, or a client output of whose channel a packet arrived,
/// Unfinished where the line has more than T turns want, and Done.
///
/// `Answers` says, of each command, what it took, what it wrote and why it ended, of all that it was handed: `device`
/// before and after. What follows from it is said by the laws beside this call: of what ports gave that tell it
/// (`slot_of_given`, `pull_of_given`, `check_of_text`, `run_of_text`), of ports that do not fail (`without_faults`),
/// and of a connection, whatever the others do (`headline`) and where its own line was damaged (`damaged_lines`).
pub fn run<P: Source, K: Sink, C: Chooser, I: Source, O: Sink>(
    alloc: Global,
    words: &[String],
    plan: &mut P,
    bays: &mut Rack<I, O>,
    chooser: &mut C,
    report: &mut K,
) -> Status
    // The words say the command: Words is the answer exactly where they are the form of none, and then all is as it
    // was.
    ensures words { (result ≡ Status.Words) ↔ IsNoForm (texts words.now) }
    ensures form { result ≢ Status.Words → (command : Command) × IsForm (texts words.now) command }
    ensures idle { result ≡ Status.Words → (plan.new ≡ plan.old) × (bays.new ≡ bays.old) × (report.new ≡ report.old)
        × (chooser.new ≡ chooser.old) }

    // The command is answered for, by LineAnswers, CheckAnswers, RunAnswers, TrialAnswers or PlacesAnswers, over all
    // that was handed in, before and after.
    ensures answers { (command : Command) → IsForm (texts words.now) command
        → Answers command (device P.Source K.Sink I.Source O.Sink plan.old bays.old report.old)
        (device P.Source K.Sink I.Source O.Sink plan.new bays.new report.new) (C.asked chooser.old) (C.asked chooser.new) result }

    // After Words, PlanFault, Plan and Memory all places and the report are as they were. After the last three the plan
    // may have been read by then.
    ensures refused { IsRefusal result → (bays.new ≡ bays.old) × (report.new ≡ report.old) }

    // What stays of the plan's source and the report, whatever the command; and (`alone`) which of plan, places and
    // chooser each command does not touch.
    ensures stays { Stays (device P.Source K.Sink I.Source O.Sink plan.old bays.old report.old)
        (device P.Source K.Sink I.Source O.Sink plan.new bays.new report.new) }
    ensures alone { (command : Command) → IsForm (texts words.now) command
        → (LeavesPlan command → plan.new ≡ plan.old) × (LeavesBays command → bays.new ≡ bays.old)
        × (LeavesChooser command → chooser.new ≡ chooser.old) }
{
    match command_of(words) {
        Some(Command::Slot(slot)) => {
            let line = bays.line_in_mut(0);
            status_of(write_slot(alloc, slot, line, report))
        }
        Some(Command::Pull(port, slots)) => {
            let tapped = bays.line_in_mut(0);
            status_of(write_pull(alloc, port, &slots, tapped, report))
        }
        Some(Command::Check) => status_of_check(check_plan(alloc, plan, report)),
        Some(Command::Run) => status_of_run(run_plan(alloc, plan, bays, chooser, report)),
        Some(Command::RunOrdered(_number)) => {
            status_of_run(run_plan(alloc, plan, bays, chooser, report))
        }
        Some(Command::RunCaptures) => status_of_run(run_plan(alloc, plan, bays, chooser, report)),
        Some(Command::Trial(seed)) => status_of_trial(run_trial(alloc, seed, chooser, report)),
        Some(Command::Protect(port, slots, turns, wait)) => {
            status_of(protect(alloc, port, &slots, turns, wait, bays, report))
        }
        Some(Command::Bundle(clients, turns)) => {
            status_of(bundle(alloc, clients.as_slice(), turns, bays, report))
        }
        Some(Command::Unbundle(turns)) => status_of(unbundle(alloc, turns, bays, report)),
        None => Status::Words,
    }
}
