// The files of the program, and the place of the line.
ghost use Rattle.std.specs.Prelude.{◌≡◌, codes, is_some};
ghost use Rattle.otn_view.specs.Opened.{IsLineOf, IsLive};

use otn_ports::{FileSource, InPlaceOf, ReadBlock};
use program_words::{Opened, opened_input};
use std::alloc::Global;
use std::fs::File;
use std::io;

/// The name of the file of the plan, in the folder in which the program is run.
pub(crate) fn plan_name() -> &'static str
    ensures { result.now ≡ codes "plan.toml" }
{
    "plan.toml"
}

/// The place of a line by the answer to the opening of its file: none where there is no such file. Else it is live. Of
/// a file that is there and cannot be opened the first read fails, so that the line is no empty one.
pub(crate) fn line_of(alloc: Global, answer: io::Result<File>) -> Option<InPlaceOf<FileSource>>
    ensures { IsLineOf answer result }
{
    match opened_input(answer) {
        Opened::File(file) => Some(live_line(alloc, Some(file))),
        Opened::Absent => None,
        Opened::Refused => Some(live_line(alloc, None)),
    }
}

// The live place of a line with this file, or with none, so that its first read fails.
fn live_line(alloc: Global, file: Option<File>) -> InPlaceOf<FileSource>
    ensures { IsLive (is_some file) result }
{
    let mut source = FileSource::of(file);
    source.read_by_blocks(alloc, ReadBlock::Frames);
    InPlaceOf::Live(source, 0)
}
