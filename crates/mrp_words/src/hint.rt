//! What was probably meant by words or an input that did not serve.

ghost use Rattle.std.specs.Prelude.{◌≡◌, map};
ghost use Rattle.mrp_words.specs.Hints.{has_stray_word, hint_text, is_command, is_option, two_in_a_row};

use std::convert::AsStr;

const FOLDER_AS_INPUT: &str =
    "hint: standard input is a folder: `mrp plan --dir FOLDER` plans the tables that a folder has as files";

const UTF16: &str = "hint: a file in UTF-16 (Unicode text) can't be read: save it as UTF-8";

const FILE_AS_FOLDER: &str =
    "hint: --dir names a folder, and this is a file: a bundle is read from standard input, as in `mrp plan < FILE`";

const STRAY_WORD: &str =
    "hint: a bundle or a day is read from standard input, as in `mrp plan < FILE`; `--dir FOLDER` names a folder of tables";

const INSPECT: &str = "hint: mrp inspect --dir D tells all faults";

/// What was probably meant.
#[derive(Clone, Copy, Debug, PartialEq, Eq)]
pub enum Hint {
    /// The tables of the folder that is the input.
    FolderAsInput,
    /// The same text in UTF-8.
    Utf16,
    /// The bundle in the file that was named as a folder.
    FileAsFolder,
    /// The input that was named by a word.
    StrayWord,
    /// All faults of a folder's tables.
    Inspect,
}

impl Hint {
    /// The line that says it.
    pub fn text<'a>(self) -> &'a str
        ensures { result.now ≡ hint_text self }
    {
        match self {
            Hint::FolderAsInput => FOLDER_AS_INPUT,
            Hint::Utf16 => UTF16,
            Hint::FileAsFolder => FILE_AS_FOLDER,
            Hint::StrayWord => STRAY_WORD,
            Hint::Inspect => INSPECT,
        }
    }
}

// Whether a word is one of the commands.
fn is_command(word: &str) -> bool
    ensures { result ≡ is_command word.now }
{
    word == "plan"
        || word == "live"
        || word == "page"
        || word == "check"
        || word == "carry"
        || word == "inspect"
        || word == "desk"
}

// Whether a word begins as an option does.
fn is_option(word: &str) -> bool
    ensures { result ≡ is_option word.now }
{
    word.as_bytes().starts_with(b"-")
}

// Whether two words in a row are no options.
fn has_two_in_a_row<S: AsStr>(words: &[S]) -> bool
    ensures { result ≡ two_in_a_row (map S.text words.now) }
{
    let mut left = words;
    while let [word, rest @ ..] = left {
        if let [next, ..] = rest {
            if !is_option(word.as_str()) && !is_option(next.as_str()) {
                return true;
            }
        }
        left = rest;
    }
    false
}

/// Whether a command stands first, and two words in a row are no options: the second of them is no value of
/// an option.
pub fn has_stray_word<S: AsStr>(words: &[S]) -> bool
    ensures { result ≡ has_stray_word (map S.text words.now) }
{
    match words {
        [command, ..] => is_command(command.as_str()) && has_two_in_a_row(words),
        [] => false,
    }
}
