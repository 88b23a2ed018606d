//! Hidden names.
ghost use Rattle.std.specs.Prelude.{◌≡◌};
ghost use Rattle.liquid_files.specs.Names.{hidden_names, written_hidden_names};

/// How many parts of a path between slashes begin with a dot. It takes no memory.
pub fn hidden_names(path: &str) -> usize
    ensures { result ≡ hidden_names path.now }
{
    let mut count: usize = 0;
    let mut begins = true;
    for byte in path.as_bytes() {
        if begins && *byte == b'.' {
            count += 1;
        }
        begins = *byte == b'/';
    }
    count
}

/// How many parts of the path that a pattern writes begin with a dot outside of its tags: the dots
/// that a tag gives may be the data's. It takes no memory.
pub fn written_hidden_names(pattern: &str) -> usize
    ensures { result ≡ written_hidden_names pattern.now }
{
    let mut count: usize = 0;
    let mut is_written = true;
    let mut is_at_start = true;
    for byte in pattern.as_bytes() {
        if is_at_start && *byte == b'.' {
            count += 1;
        }
        is_written = *byte != b'{' && (is_written || *byte == b'}');
        is_at_start = is_written && *byte == b'/';
    }
    count
}
