//! The words after the program's name.

ghost use Rattle.std.specs.Prelude.{◌≡◌, ◌≢◌, drop};

use std::alloc::{Alloc, Global};
use std::env;
use std::env::Env;
use std::io::ErrorKind;

/// The words after the program's name, as far as they can be had.
pub enum Words {
    /// All of them, in order.
    Texts(Vec<String>),
    /// One of them isn't UTF-8.
    NotText,
    /// Want of memory for them.
    Memory,
}

impl Drop for Words {
    fn drop(self) {
        match self {
            Words::Texts(_words) => {}
            Words::NotText | Words::Memory => {}
        }
    }
}

/// All words but the first, which is the program's name.
pub fn after_name(mut words: Vec<String>) -> Vec<String>
    ensures { result.items ≡ drop 1 words.items }
{
    if !words.is_empty() {
        let _name = words.remove(0);
    }
    words
}

/// Why there are no words, where the system answers so: a word that isn't UTF-8 is `InvalidData`.
fn lack(kind: ErrorKind) -> Words
    ensures text { kind ≡ ErrorKind.InvalidData → result ≡ Words.NotText }
    ensures memory { kind ≢ ErrorKind.InvalidData → result ≡ Words.Memory }
{
    match kind {
        ErrorKind::InvalidData => Words::NotText,
        _ => Words::Memory,
    }
}

/// The words after the program's name. Of the words that it gives std tells nothing.
pub(crate) fn words_of<R: Env + Alloc<A = Global>>(rt: &R) -> Words {
    match env::args(rt) {
        Ok(words) => match words.collect(rt.alloc()) {
            Ok(words) => Words::Texts(after_name(words)),
            Err(_) => Words::Memory,
        },
        Err(error) => lack(error.kind()),
    }
}
