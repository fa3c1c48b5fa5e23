// The version of the library.
ghost use Rattle.std.specs.Prelude.{◌≡◌};

// The header's NUP_VERSION: major * 1,000,000 + minor * 1,000 + patch.
#[unsafe(no_mangle)]
pub extern "C" fn nup_version() -> u32
    ensures { result ≡ 3000 }
{
    3000
}
