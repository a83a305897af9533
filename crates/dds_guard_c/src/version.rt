//! The version of the library, for a program that compares it with its header's.
ghost use Rattle.std.specs.Prelude.{◌≡◌};

/// 10,000 for a major version, 100 for a minor one, and 1 for a patch: `DDSCHECK_VERSION_NUMBER` of the header.
const VERSION: u32 = 100;

/// The version's number.
#[unsafe(no_mangle)]
pub extern "C" fn ddscheck_library_version() -> u32
    ensures { result ≡ 100 }
{
    VERSION
}
