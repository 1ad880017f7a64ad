// The answer of the system to the opening of an input.
ghost use Rattle.program_words.specs.Opened.{IsOpened};

use std::io;
use std::io::ErrorKind;

/// What the place of an input becomes.
#[derive(Drop)]
pub enum Opened<F> {
    /// The file is there and open.
    File(F),
    /// There is no file of this name, so the place is empty.
    Absent,
    /// There is one, and it cannot be opened, as where the permission lacks: its first read fails.
    Refused,
}

/// What the place of an input becomes by this answer: empty where there is no such file, and for no other error.
pub fn opened_input<F>(answer: io::Result<F>) -> Opened<F>
    ensures { IsOpened answer result }
{
    match answer {
        Ok(file) => Opened::File(file),
        Err(error) if error.kind() == ErrorKind::NotFound => Opened::Absent,
        Err(_) => Opened::Refused,
    }
}
