ghost use Rattle.std.specs.Prelude.{◌≡◌, MatchOption, None, Some};
ghost use Rattle.lps_run.specs.Words.{command_named as command_named_of, command_of as command_of_words, is_positional as is_positional_of, words_of};

/// What a call is asked for.
#[derive(Clone, Copy, Debug, PartialEq, Eq)]
pub enum Command {
    /// To run a text over a stream.
    Run,
    /// To print the canonical text of a text.
    Check,
}

/// Whether a word is the value of an argument: it isn't empty and is no option.
fn is_positional(word: &[u8]) -> bool
    ensures { result ≡ is_positional_of word.now }
{
    match word {
        [] => false,
        [first, ..] => *first != b'-',
    }
}

fn command_named(word: &[u8]) -> Option<Command>
    ensures { result ≡ command_named_of word.now }
{
    if word == b"run".as_slice() {
        Some(Command::Run)
    } else if word == b"check".as_slice() {
        Some(Command::Check)
    } else {
        None
    }
}

/// The command in the words `run TEXT` or `check TEXT`, and the name of its text.
pub fn command_of(words: &[String]) -> Option<(Command, &str)>
    ensures { MatchOption result (command_of_words (words_of words.now) ≡ None) (λ p. command_of_words (words_of words.now) ≡ Some (p.0, p.1.now)) }
{
    let [word, name] = words else {
        return None;
    };
    let command = command_named(word.as_bytes())?;
    if is_positional(name.as_bytes()) {
        Some((command, name.as_str()))
    } else {
        None
    }
}
