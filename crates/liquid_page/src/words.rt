//! The words of a call.
ghost use Rattle.std.specs.Prelude.{◌≡◌, map, option_map, string_bytes, Ok};
ghost use Rattle.liquid_model.specs.Answer.{Answers};
ghost use Rattle.liquid_page.specs.Words.{pair_of, borrowed_pair, page_call, call_view};

use liquid_model::Result;
use std::alloc::Global;

/// What a call names: paths of files, and a name for each partial's file.
#[derive(Drop)]
pub struct CommandLine<'w> {
    pub template: &'w str,
    pub data: &'w str,
    pub partials: Vec<(&'w str, &'w str)>,
}

/// The name and the file of a word `NAME=FILE`.
pub fn pair_of(word: &str) -> Option<(&str, &str)>
    ensures { option_map borrowed_pair result ≡ pair_of word.now }
{
    match word.split_once('=') {
        Some((name, file)) => if name.is_empty() {
            None
        } else {
            Some((name, file))
        },
        None => None,
    }
}

/// The call that the words after the program's own make, or none where they make none.
pub fn call_of<'w>(alloc: Global, words: &'w [String]) -> Result<Option<CommandLine<'w>>>
    ensures { Answers (λ o. option_map call_view o) result
        (Ok (page_call (map string_bytes words.now))) }
{
    if words.len() < 2 {
        return Ok(None);
    }
    let mut partials = Vec::new(alloc);
    for word in &words[2..] {
        match pair_of(word.as_str()) {
            Some(pair) => partials.push(pair)?,
            None => return Ok(None),
        }
    }
    Ok(Some(CommandLine {
        template: words[0].as_str(),
        data: words[1].as_str(),
        partials,
    }))
}
