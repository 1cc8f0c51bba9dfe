ghost use Rattle.std.specs.Prelude.{◌≡◌, ◌∷◌, ℕ, List, codes, map, string_bytes, IfOk, IfSome, IfNone};
ghost use Rattle.clap.specs.Words.{found_of, rows_of, Row};
ghost use Rattle.m17_words.specs.declared.command.Command.{Command};
ghost use Rattle.m17_words.specs.Words.{Names, IsReplayWith, IsMakeWith};
ghost use Rattle.m17_words.specs.First.{text_of_first};
ghost use Rattle.m17_words.specs.Given.{IsGiven};

use crate::bridge_words::bridge_of;
use crate::clap_words::{find, is_there, text_or};
use crate::first::{FirstWord, first_word};
use crate::plan::plan_of;
use crate::serve_words::serve_of;
use crate::tables::table;
use crate::talk_words::talk_of;
use crate::{Command, WordsRefusal, values};
use clap::ArgMatches;
use std::alloc::Global;

/// The most entries of a made evening.
const ENTRIES_MAX: u64 = 100_000;

/// The command that the words name, with its values. `Refused` where they name none: there is no first word, or it is no
/// command's, or the simple command of `clap` refuses the words after it, or a value breaks its bound; `NoMemory` where
/// there was none for reading them.
pub fn read_words(alloc: Global, words: &[String]) -> Result<Command, WordsRefusal>
    ensures named { IfOk result (Names (map string_bytes words.now)) }
    ensures refused { result ≡ Err WordsRefusal.Refused → (command : Command)
        → ¬ Names (map string_bytes words.now) command }
{
    let [first, rest @ ..] = words else {
        return Err(WordsRefusal::Refused);
    };
    match first_word(first.as_str()) {
        Some(word) => read_after(alloc, word, rest),
        None => Err(WordsRefusal::Refused),
    }
}

// The command of a first word, with the words after it.
fn read_after(alloc: Global, word: FirstWord, words: &[String]) -> Result<Command, WordsRefusal>
    ensures named { IfOk result (Names (text_of_first word ∷ map string_bytes words.now)) }
    ensures refused { result ≡ Err WordsRefusal.Refused → (command : Command)
        → ¬ Names (text_of_first word ∷ map string_bytes words.now) command }
{
    let table = match table(alloc, word) {
        Ok(table) => table,
        Err(refusal) => return Err(refusal),
    };
    match find(table, words) {
        Ok(matches) => given(alloc, word, &matches),
        Err(refusal) => Err(refusal),
    }
}

// The command of a first word, with the values that were found.
fn given(alloc: Global, word: FirstWord, matches: &ArgMatches) -> Result<Command, WordsRefusal>
    ensures given { IfOk result (IsGiven word (rows_of (found_of matches.now))) }
    ensures refused { result ≡ Err WordsRefusal.Refused → (command : Command)
        → ¬ IsGiven word (rows_of (found_of matches.now)) command }
{
    match word {
        FirstWord::Judge => Ok(Command::Judge),
        FirstWord::Show => Ok(Command::Show),
        FirstWord::Replay => replay_of(matches),
        FirstWord::Make => make_of(matches),
        FirstWord::Check => Ok(Command::Check),
        FirstWord::Migrate => Ok(Command::Migrate),
        FirstWord::Talk => talk_of(alloc, matches),
        FirstWord::Serve => serve_of(alloc, matches),
        FirstWord::Bridge => bridge_of(alloc, matches),
    }
}

// A replay with the values that were found.
fn replay_of(matches: &ArgMatches) -> Result<Command, WordsRefusal>
    ensures given { IfOk result (IsReplayWith (rows_of (found_of matches.now))) }
    ensures refused { result ≡ Err WordsRefusal.Refused → (command : Command)
        → ¬ IsReplayWith (rows_of (found_of matches.now)) command }
{
    match plan_of(matches, "M17-TST") {
        Some(plan) => Ok(Command::Replay {
            call: plan.call,
            modules: plan.modules,
            parrots: plan.parrots,
            places: plan.places,
            summary: is_there(matches, "summary"),
            limit: plan.limit,
            threads: is_there(matches, "threads"),
        }),
        None => Err(WordsRefusal::Refused),
    }
}

// A made evening with the values that were found.
fn make_of(matches: &ArgMatches) -> Result<Command, WordsRefusal>
    ensures given { IfOk result (IsMakeWith (rows_of (found_of matches.now))) }
    ensures refused { result ≡ Err WordsRefusal.Refused → (command : Command)
        → ¬ IsMakeWith (rows_of (found_of matches.now)) command }
{
    let Some(seed) = values::number(text_or(matches, "seed", ""), 0, u64::MAX) else {
        return Err(WordsRefusal::Refused);
    };
    match values::number(text_or(matches, "count", ""), 0, ENTRIES_MAX) {
        Some(count) => Ok(Command::Make {
            seed,
            count: count as u32,
        }),
        None => Err(WordsRefusal::Refused),
    }
}
