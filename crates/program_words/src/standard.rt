// The descriptors of standard input, output and error.
ghost use Rattle.std.specs.Prelude.{◌≡◌, ◌≤ℤ◌, pos, Some, None, IfSome};

use std::fs;
use std::fs::Files;
use std::os::fd::AsRawFd;

// The descriptors 0, 1 and 2 are standard input, output and error.
const LAST_STANDARD: i32 = 2;

/// Takes the descriptors 0, 1 and 2, those that the caller left closed: `/dev/null`, open for reading, holds each until
/// what is handed out is dropped. Without it the first file that the program opens would get such a number, and a
/// report, or a complaint, would go into that file. A write to what holds it fails.
pub fn take_standard<R: Files>(files: &R) -> [Option<R::File>; 3]
where
    R::File: AsRawFd,
{
    [holder(files), holder(files), holder(files)]
}

// Holds the lowest descriptor that is free, where it is one of the three.
fn holder<R: Files>(files: &R) -> Option<R::File>
where
    R::File: AsRawFd,
{
    if_standard(fs::open(files, "/dev/null").ok()?)
}

// The file, where its descriptor is one of the three. It is closed where it is none.
fn if_standard<F: AsRawFd + Drop>(file: F) -> Option<F>
    ensures held { IfSome (F.raw_fd file) (λ number. number ≤ℤ pos 2 → result ≡ Some file) }
    ensures closed { IfSome (F.raw_fd file) (λ number. pos 3 ≤ℤ number → result ≡ None) }
{
    if file.as_raw_fd() <= LAST_STANDARD {
        Some(file)
    } else {
        None
    }
}
