//! The options of the words, read without memory.

ghost use Rattle.std.specs.Prelude.{◌≡◌, ◌∷◌, false, map, option_copied};
ghost use Rattle.cell_words.specs.Read.{AreFour, AreOne, BeginsWith, given};
ghost use Rattle.cell_words.specs.Words.{is_joined, text_of, texts};

/// An option, with its hyphens, and its text.
#[derive(Clone, Copy, Drop)]
pub(crate) struct Given<'a> {
    /// Its name, with the hyphens.
    pub name: &'a str,
    /// Its text.
    pub text: &'a str,
}

/// The first option, where its name is a word of its own, and the words behind its text.
fn parted<'a>(name: &'a str, behind: &'a [String]) -> Option<(Given<'a>, &'a [String])>
    ensures { is_joined name.now ≡ false → BeginsWith (name.now ∷ texts behind.now) result }
{
    match behind {
        [] => None,
        [text, rest @ ..] => {
            let text = text.as_str();
            Some((Given { name, text }, rest))
        }
    }
}

/// The first option, of a word and those behind it, and the words behind the option.
fn cut<'a>(word: &'a str, behind: &'a [String]) -> Option<(Given<'a>, &'a [String])>
    ensures { BeginsWith (word.now ∷ texts behind.now) result }
{
    match word.split_once('=') {
        Some((name, text)) => Some((Given { name, text }, behind)),
        None => parted(word, behind),
    }
}

/// The first option, and the words behind it.
fn first_option<'a>(words: &'a [String]) -> Option<(Given<'a>, &'a [String])>
    ensures { BeginsWith (texts words.now) result }
{
    match words {
        [] => None,
        [word, behind @ ..] => cut(word.as_str(), behind),
    }
}

/// The one option that the words are.
pub(crate) fn one_option<'a>(words: &'a [String]) -> Option<Given<'a>>
    ensures { AreOne (texts words.now) result }
{
    let (option, rest) = first_option(words)?;
    match rest {
        [] => Some(option),
        _ => None,
    }
}

/// The four options that the words are.
pub(crate) fn four_options<'a>(
    words: &'a [String],
) -> Option<(Given<'a>, Given<'a>, Given<'a>, Given<'a>)>
    ensures { AreFour (texts words.now) result }
{
    let (first, rest) = first_option(words)?;
    let (second, rest) = first_option(rest)?;
    let (third, rest) = first_option(rest)?;
    let fourth = one_option(rest)?;
    Some((first, second, third, fourth))
}

/// The text that the options have at the name.
pub(crate) fn text_of<'a>(options: &[Given<'a>], name: &str) -> Option<&'a str>
    ensures { option_copied result ≡ text_of name.now (map given options.now) }
{
    for option in options {
        if option.name == name {
            return Some(option.text);
        }
    }
    None
}
