// The version of the library.
ghost use Rattle.std.specs.Prelude.{◌≡◌};
ghost use Rattle.otn_c.specs.Version.{library_version};

// The version of `include/otn.h`, as that has it.
const VERSION: u32 = 2;

/// The version of the library: it rises with each call that is added, and each change of how one is made or of what it
/// answers.
#[unsafe(no_mangle)]
pub extern "C" fn otn_version() -> u32
    ensures { result ≡ library_version }
{
    VERSION
}
