// Which files of the system are read or written, so that no output is one of them.
ghost use Rattle.std.specs.Prelude.{◌<◌, IfSome, length};

use otn_base::Memory;
use program_words::{FileNumber, made_output, number_of};
use std::alloc::Global;
use std::fs;
use std::fs::{File, Metadata};
use std::os::unix::fs::MetadataExt;

/// Files that are read, or written.
#[derive(Drop)]
pub(crate) struct Marks {
    files: Vec<FileNumber>,
}

impl Marks {
    /// None.
    pub(crate) fn new(alloc: Global) -> Marks {
        Marks {
            files: Vec::new(alloc),
        }
    }

    /// Marks the file of this name, if there is one.
    pub(crate) fn mark(&mut self, rt: &HostRuntime, path: &str) -> Result<(), Memory> {
        if let Ok(metadata) = fs::metadata(rt, path) {
            if let Some(number) = FileNumber::of(&metadata) {
                self.files.push(number)?;
            }
        }
        Ok(())
    }

    /// Makes the file of an output, empty, and marks it. None where it is a marked one, which is left as it is, or
    /// can't be made.
    pub(crate) fn make(&mut self, rt: &HostRuntime, path: &str) -> Result<Option<File>, Memory> {
        let Some(file) = made_output(rt, path, self.files.as_slice()) else {
            return Ok(None);
        };
        if let Some(number) = number_of(&file) {
            self.files.push(number)?;
        }
        Ok(Some(file))
    }
}

// Which folder of the system a folder is: its device, and its number there.
#[derive(Clone, Copy, PartialEq, Eq)]
struct FolderNumber {
    device: u64,
    number: u64,
}

/// The numbers, from 1, of the first two of these folders that are one, whatever their names.
pub(crate) fn one_folder(
    rt: &HostRuntime,
    folders: &[String],
) -> Result<Option<(usize, usize)>, Memory> {
    let mut numbers = Vec::new(rt.alloc());
    for i in 0..folders.len() {
        let number = folder_number(rt, folders[i].as_str());
        if let Some(earlier) = place_of(numbers.as_slice(), number) {
            return Ok(Some((earlier + 1, i + 1)));
        }
        numbers.push(number)?;
    }
    Ok(None)
}

// None where the system does not say: then a file in it can't be opened either.
fn folder_number(rt: &HostRuntime, path: &str) -> Option<FolderNumber> {
    Some(number_in(&fs::metadata(rt, path).ok()?))
}

fn number_in(metadata: &Metadata) -> FolderNumber {
    FolderNumber {
        device: metadata.dev(),
        number: metadata.ino(),
    }
}

fn place_of(numbers: &[Option<FolderNumber>], number: Option<FolderNumber>) -> Option<usize>
    ensures { IfSome result (λ place. place < length numbers.now) }
{
    if number.is_none() {
        return None;
    }
    numbers.iter().position(|&one| one == number)
}
