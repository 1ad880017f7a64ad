//! `otn_view`, what a line carries, turn by turn: hands the files of the line and of the plan, and standard output, to
//! the one call that does all the work, and ends with the code of its answer.
//!
//! `otn_view FILE [otu3] [scrambled] PORT:K,K ..` shows the line of the file, an OTU2 that is not scrambled where the
//! words do not say otherwise, and the tributaries of these ports and slots. `otn_view FILE in N` and `otn_view FILE
//! out N` show it as line N, 0 to 3, of the plan in `plan.toml`: of the kind that the plan says, with its connections
//! on it. With `events` behind these words it writes what changes between two turns of that view. Without words it
//! writes its page.
#![tactic(auto)]

ghost use Rattle.otn_view.specs.Words.{AreOnLine};

use answered::answer;
use choice::{asks_for_page, split_events};
use command_base::Status;
use opened::{line_of, plan_name};
use otn_base::Memory;
use otn_ports::{FileSource, InPlaceOf, StdoutSink};
use outcome::Outcome;
use program_words::{given_words, status_of_page, take_standard};
use std::fs;
use std::fs::File;
use std::process::ExitCode;
use view_events::EventSink;
use words::{Asked, asked_of};

mod answered;
mod choice;
mod opened;
mod outcome;
mod tributary;
mod words;

fn main(rt: HostRuntime) -> ExitCode {
    let _standard = take_standard(&rt);
    let outcome = serve(&rt).unwrap_or(Outcome::Ended(Status::Memory));
    if !outcome.is_done() {
        let _ = eprintln!(rt; "otn_view: {outcome}");
    }
    outcome.exit_code()
}

/// The page that `otn_view --help` writes, and `otn_view` alone.
const HELP: &str = "\
what an OTN line carries, turn by turn, in words and numbers (docs/VIEW.md)

  otn_view FILE [otu3] [scrambled] PORT:K,K ..   the line of FILE, and the tributaries of these ports and slots on it
  otn_view FILE in N                             the same as line input N of plan.toml, with its connections
  otn_view FILE out N                            the same as line output N
  otn_view FILE .. events                        behind each of these: what changes from turn to turn, and sums

A file named --help is ./--help. It ends with 0 where the line ended with a whole frame, and else says why on standard
error: 1 bytes after that, 2 words, 3 and 4 the plan, 5 a write, 6 a read, 7 memory, 8 there is no FILE.";

// Shows the line that the words name, or writes the page.
fn serve(rt: &HostRuntime) -> Result<Outcome, Memory> {
    let words = given_words(rt, rt.alloc())?;
    if asks_for_page(&words) {
        let text = HELP;
        return Ok(Outcome::Ended(status_of_page(println!(rt; "{text}"))));
    }
    let (front, events) = split_events(&words);
    let Some(asked) = asked_of(rt.alloc(), front)? else {
        return Ok(Outcome::Ended(Status::Words));
    };
    let Some(mut line) = line_of(rt.alloc(), fs::open(rt, front[0].as_str())) else {
        return Ok(Outcome::NoFile(front[0].clone()?));
    };
    Ok(Outcome::Ended(show(rt, &asked, events, &mut line)?))
}

// Writes the view that is asked for, or its events, to standard output.
fn show(
    rt: &HostRuntime,
    asked: &Asked,
    events: bool,
    line: &mut InPlaceOf<FileSource>,
) -> Result<Status, Memory>
    requires { AreOnLine asked.now }
{
    let mut plan = FileSource::of(plan_file(rt, asked));
    let mut report = StdoutSink::of(rt.stdout());
    if events {
        let mut report = EventSink::new(rt.alloc(), report);
        return answer(rt.alloc(), asked, &mut plan, line, &mut report);
    }
    answer(rt.alloc(), asked, &mut plan, line, &mut report)
}

// The file of the plan, where it is asked for and can be opened.
fn plan_file(rt: &HostRuntime, asked: &Asked) -> Option<File> {
    match asked {
        Asked::Given(..) => None,
        Asked::Planned(..) => fs::open(rt, plan_name()).ok(),
    }
}
