ghost use Rattle.std.specs.Prelude.{◌≡◌, ℕ, List, true, map, string_bytes, option_map, unwrap_or, IfOk};
ghost use Rattle.clap.specs.Words.{app_of, found_of, rows_of};
ghost use Rattle.m17_words.specs.Tables.{IsSimple, Takes, found, text_of, text_or, texts_of};
ghost use Rattle.m17_words.specs.Values.{IsFlagged, IsUnlessFlagged};

use crate::WordsRefusal;
use clap::error::ErrorKind;
use clap::{ArgMatches, Command};

// What `clap` finds among the words.
pub(crate) fn find<'a>(
    command: Command<'a>,
    words: &'a [String],
) -> Result<ArgMatches<'a>, WordsRefusal>
    requires { IsSimple (app_of command) }
    ensures taken { IfOk result (λ m. Takes (app_of command.entry)
        (map string_bytes words.entry.now)) }
    ensures found { IfOk result (λ m. rows_of (found_of m)
        ≡ found (app_of command.entry) (map string_bytes words.entry.now)) }
    ensures refused { result ≡ Err WordsRefusal.Refused
        → ¬ Takes (app_of command.entry) (map string_bytes words.entry.now) }
{
    match command.try_get_matches_from(words) {
        Ok(matches) => Ok(matches),
        Err(error) => match error.kind() {
            ErrorKind::OutOfMemory => Err(WordsRefusal::NoMemory),
            _ => Err(WordsRefusal::Refused),
        },
    }
}

// The text that was found for an option or an argument.
pub(crate) fn text_of<'a>(matches: &ArgMatches<'a>, name: &str) -> Option<&'a str>
    ensures { option_map (λ s. s.now) result ≡ text_of (rows_of (found_of matches.now)) name.now }
{
    matches.get_str(name)
}

// The same, or the text that stands in its place.
pub(crate) fn text_or<'a>(matches: &ArgMatches<'a>, name: &str, instead: &'a str) -> &'a str
    ensures { result.now ≡ text_or (rows_of (found_of matches.now)) name.now instead.entry.now }
{
    match text_of(matches, name) {
        Some(text) => text,
        None => instead,
    }
}

// Whether a flag is there.
pub(crate) fn is_there(matches: &ArgMatches, name: &str) -> bool
    ensures { IsFlagged (text_of (rows_of (found_of matches.now)) name.now) result }
{
    matches!(text_of(matches, name), Some("true"))
}

// Whether what a flag takes away is there.
pub(crate) fn is_unless(matches: &ArgMatches, name: &str) -> bool
    ensures { IsUnlessFlagged (text_of (rows_of (found_of matches.now)) name.now) result }
{
    !is_there(matches, name)
}

// All texts that were found for an argument, in order, if there are any.
pub(crate) fn texts_of<'m, 'a>(matches: &'m ArgMatches<'a>, name: &str) -> Option<&'m [&'a str]>
    ensures { option_map (λ texts. map (λ s. s.now) texts.now) result
        ≡ texts_of (rows_of (found_of matches.now)) name.now }
{
    matches.get_strs(name)
}
