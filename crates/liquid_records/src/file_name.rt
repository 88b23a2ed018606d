//! Names of files.
ghost use Rattle.std.specs.Prelude.{◌≡◌, true};
ghost use Rattle.liquid_records.specs.FileNames.{is_file_name};
ghost use Rattle.liquid_records.specs.inside.Dots.{ends_well};

/// Whether a text names one file below a folder, in one way alone: each part of it between slashes
/// has something besides dots, so none is empty, `.` or `..`. It takes no memory.
pub fn is_file_name(name: &str) -> bool
    ensures { result ≡ is_file_name name.now }
{
    ends_well(name.as_bytes())
}

/// Whether no part of the name has nothing but dots.
fn ends_well(name: &[u8]) -> bool
    ensures { result ≡ ends_well true name.now }
{
    let mut only_dots = true;
    for byte in name {
        if *byte == b'/' {
            if only_dots {
                return false;
            }
            only_dots = true;
        } else {
            only_dots = only_dots && *byte == b'.';
        }
    }
    !only_dots
}
