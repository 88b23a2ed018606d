//! What completes the words of the program in a shell: its help says what there is.

const BASH: &str = r#"# Completes the words of bikleinu in bash, as its help has them.
_bikleinu() {
  local word=${COMP_WORDS[COMP_CWORD]} before=${COMP_WORDS[COMP_CWORD - 1]} help words
  # bash makes words of their own of NAME, = and FILE
  [ "$word" != = ] || word=
  compopt -o filenames 2>/dev/null
  if [ "$COMP_CWORD" -eq 1 ]; then
    words="$(bikleinu --help 2>/dev/null | sed -n 's/^  \([a-z]\+\)  .*/\1/p') --help --version"
  else
    help=$(bikleinu "${COMP_WORDS[1]}" --help 2>/dev/null)
    words=$(grep -e "^ .* $before <" <<< "$help" 2>/dev/null)
    words=$(sed -n 's/.*\[possible values: \(.*\)\]$/\1/p' <<< "$words")
    if [ -z "$words" ] && [ "${word:0:1}" = - ]; then
      words=$(sed -n 's/^  .\{0,4\}\(--[a-z-]\+\).*/\1/p' <<< "$help")
    fi
  fi
  if [ -n "$words" ]; then
    mapfile -t COMPREPLY < <(compgen -W "${words//,/}" -- "$word")
  else
    mapfile -t COMPREPLY < <(compgen -f -- "$word")
  fi
}
complete -F _bikleinu bikleinu
"#;

const ZSH: &str = r#"#compdef bikleinu
# Completes the words of bikleinu in zsh, as its help has them.
_bikleinu() {
  local help values
  if (( CURRENT == 2 )); then
    values=$(bikleinu --help 2>/dev/null | sed -n 's/^  \([a-z]\+\)  .*/\1/p')
    compadd -- ${=values} --help --version
    return
  fi
  help=$(bikleinu $words[2] --help 2>/dev/null)
  values=$(grep -e "^ .* $words[CURRENT-1] <" <<< $help 2>/dev/null)
  values=$(sed -n 's/.*\[possible values: \(.*\)\]$/\1/p' <<< $values)
  if [[ -n $values ]]; then
    compadd -- ${=values//,/}
  elif [[ $PREFIX == -* ]]; then
    compadd -- $(sed -n 's/^  .\{0,4\}\(--[a-z-]\+\).*/\1/p' <<< $help)
  else
    compset -P '*='
    _files
  fi
}
compdef _bikleinu bikleinu
"#;

const FISH: &str = r#"# Completes the words of bikleinu in fish, as its help has them.
function __bikleinu_words
    set -l words (commandline -opc)
    set -l word (commandline -ct)
    if test (count $words) -eq 1
        bikleinu --help 2>/dev/null | string replace -rf '^  ([a-z]+)  +(.*)' '$1\t$2'
        printf '%s\n' --help --version
        return
    end
    set -l help (bikleinu $words[2] --help 2>/dev/null)
    set -l option (string match -re -- "^ .* $words[-1] <" $help 2>/dev/null)
    set -l values (string replace -rf '.*\[possible values: (.*)\]$' '$1' -- $option)
    if test -n "$values"
        string split ', ' -- $values
    else if string match -q -- '-*' $word
        string replace -rf '^  .{0,4}(--[a-z-]+)( <[^ ]*)?  +(.*)' '$1\t$3' -- $help
    else
        __fish_complete_path $word
    end
end
complete -c bikleinu -f -a '(__bikleinu_words)'
"#;

/// What a shell reads to complete the words of the program, where the words of a call ask for it:
/// `completions bash`, `zsh` or `fish`. It takes no memory.
pub fn completions(words: &[String]) -> Option<&'static str> {
    let [_, command, shell] = words else {
        return None;
    };
    if command.as_str() != "completions" {
        return None;
    }
    match shell.as_str() {
        "bash" => Some(BASH),
        "zsh" => Some(ZSH),
        "fish" => Some(FISH),
        _ => None,
    }
}
