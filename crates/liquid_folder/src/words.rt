//! The words of a call.
ghost use Rattle.std.specs.Prelude.{◌≡◌, map, option_map, string_bytes};
ghost use Rattle.liquid_folder.specs.Words.{folder_call, folder_call_view, folders_named};
ghost use Rattle.liquid_folder.specs.Words.{missing_named};

use liquid_site::Missing;

/// What a call names.
#[derive(Clone, Copy)]
pub struct FolderCall<'w> {
    /// The folder whose `pages` and `partials` are the templates of the site.
    pub folder: &'w str,
    /// The file of the data.
    pub data: &'w str,
    /// The folder into which the pages are written.
    pub out: &'w str,
    /// What becomes of a missing value.
    pub missing: Missing,
}

/// The call that the words after the program's own make: FOLDER DATA OUT, none of them empty, and
/// before them perhaps `--missing fault` or `--missing nil`. None where they make none.
pub fn call_of(words: &[String]) -> Option<FolderCall<'_>>
    ensures { option_map folder_call_view result ≡ folder_call (map string_bytes words.now) }
{
    match words {
        [folder, data, out] => folders_named(
            Missing::IsFault,
            folder.as_str(),
            data.as_str(),
            out.as_str(),
        ),
        [option, word, folder, data, out] => {
            if option.as_str() != "--missing" {
                return None;
            }
            let missing = missing_named(word.as_str())?;
            folders_named(missing, folder.as_str(), data.as_str(), out.as_str())
        }
        _ => None,
    }
}

/// What the word after `--missing` makes of a missing value.
fn missing_named(word: &str) -> Option<Missing>
    ensures { result ≡ missing_named word.now }
{
    match word {
        "fault" => Some(Missing::IsFault),
        "nil" => Some(Missing::IsNil),
        _ => None,
    }
}

/// A call of these paths, where none of them is empty.
fn folders_named<'w>(
    missing: Missing,
    folder: &'w str,
    data: &'w str,
    out: &'w str,
) -> Option<FolderCall<'w>>
    ensures { option_map folder_call_view result
        ≡ folders_named missing folder.now «data».now out.now }
{
    if folder.is_empty() || data.is_empty() || out.is_empty() {
        return None;
    }
    Some(FolderCall {
        folder,
        data,
        out,
        missing,
    })
}
