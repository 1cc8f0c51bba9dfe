ghost use Rattle.std.specs.Prelude.{◌≡◌, ◌++◌, ◌∷◌, [], ◌<◌, ◌≤◌, codes, decimal, map, string_bytes, IfOk, IfErr, Some, vec_len};
ghost use Rattle.clap.specs.Words.{found_of, rows_of};
ghost use Rattle.m17_words.specs.declared.command.Command.{Command};
ghost use Rattle.m17_words.specs.Plans.{IsPlan, NameLinks};
ghost use Rattle.m17_words.specs.Tables.{text_of, text_or, texts_of};
ghost use Rattle.m17_words.specs.Values.{IsNumberIfAny, IsPace, pace_unnamed};
ghost use Rattle.m17_words.specs.Words.{IsServeWith};

use crate::clap_words::{is_there, is_unless, text_of, text_or, texts_of};
use crate::plan::{Plan, plan_of};
use crate::talk_words::{book_of, owned};
use crate::{Command, ServeOrder, WordsRefusal, values};
use clap::ArgMatches;
use std::alloc::Global;

/// For how many seconds a reflector may be told to serve at the most, and a bridge to run.
pub(crate) const SECONDS_MAX: u64 = 1_000_000;

/// The frames in any second for one peer where the words name none.
const PACE_UNNAMED: &str = "100";

/// The most links of a reflector.
const BINDS_MAX: usize = 4;

// A run of the reflector with the values that were found.
pub(crate) fn serve_of(alloc: Global, matches: &ArgMatches) -> Result<Command, WordsRefusal>
    ensures given { IfOk result (IsServeWith (rows_of (found_of matches.now))) }
    ensures refused { result ≡ Err WordsRefusal.Refused → (command : Command)
        → ¬ IsServeWith (rows_of (found_of matches.now)) command }
{
    let Some(plan) = plan_of(matches, "") else {
        return Err(WordsRefusal::Refused);
    };
    let Some(pace) = values::pace(text_or(matches, "pace", PACE_UNNAMED)) else {
        return Err(WordsRefusal::Refused);
    };
    match values::number_if_any(text_of(matches, "for"), 1, SECONDS_MAX) {
        Some(seconds) => serve_with(alloc, matches, &plan, seconds, pace),
        None => Err(WordsRefusal::Refused),
    }
}

// A run of the reflector with this plan, for `seconds` seconds where they are named, with `pace` frames in any second for one
// peer, and the texts that were found.
fn serve_with(
    alloc: Global,
    matches: &ArgMatches,
    plan: &Plan,
    seconds: Option<u64>,
    pace: u32,
) -> Result<Command, WordsRefusal>
    requires plan { IsPlan (rows_of (found_of matches.now)) [] plan.now }
    requires seconds { IsNumberIfAny 1 1000000
        (text_of (rows_of (found_of matches.now)) (codes "for")) seconds }
    requires pace { IsPace (text_or (rows_of (found_of matches.now)) (codes "pace")
        (decimal pace_unnamed)) pace }
    ensures given { IfOk result (IsServeWith (rows_of (found_of matches.now))) }
    ensures refused { result ≡ Err WordsRefusal.Refused
        → ¬ NameLinks (texts_of (rows_of (found_of matches.now)) (codes "bind")) }
{
    let binds = binds_of(alloc, matches)?;
    let book = book_of(alloc, text_of(matches, "book"))?;
    let board = book_of(alloc, text_of(matches, "board"))?;
    let stop = book_of(alloc, text_of(matches, "stop"))?;
    Ok(Command::Serve(ServeOrder {
        call: plan.call,
        modules: plan.modules,
        parrots: plan.parrots,
        places: plan.places,
        seconds,
        book,
        binds,
        limit: plan.limit,
        rules: is_there(matches, "rules"),
        board,
        fill: is_there(matches, "fill-crc"),
        guard: is_unless(matches, "no-guard"),
        pace,
        stop,
    }))
}

// The texts of the links, in their order, where there are as many as a reflector may have.
fn binds_of(alloc: Global, matches: &ArgMatches) -> Result<Vec<String>, WordsRefusal>
    ensures same { IfOk result (λ all. texts_of (rows_of (found_of matches.now)) (codes "bind")
        ≡ Some (map string_bytes all.items)) }
    ensures some { IfOk result (λ all. 0 < vec_len all) }
    ensures few { IfOk result (λ all. vec_len all ≤ 4) }
    ensures refused { result ≡ Err WordsRefusal.Refused
        → ¬ NameLinks (texts_of (rows_of (found_of matches.now)) (codes "bind")) }
{
    match texts_of(matches, "bind") {
        Some(texts) if !texts.is_empty() && texts.len() <= BINDS_MAX => all_owned(alloc, texts),
        _ => Err(WordsRefusal::Refused),
    }
}

// Texts of their own.
fn all_owned(alloc: Global, texts: &[&str]) -> Result<Vec<String>, WordsRefusal>
    ensures same { IfOk result (λ all. map string_bytes all.items ≡ map (λ s. s.now) texts.now) }
    ensures memory { IfErr result (λ e. e ≡ WordsRefusal.NoMemory) }
{
    let mut all = Vec::new(alloc);
    for text in texts {
        push_owned(alloc, &mut all, text)?;
    }
    Ok(all)
}

// One more text of its own.
fn push_owned(alloc: Global, all: &mut Vec<String>, text: &str) -> Result<(), WordsRefusal>
    ensures more { IfOk result (λ _. map string_bytes all.new.items
        ≡ map string_bytes all.old.items ++ text.now ∷ []) }
    ensures memory { IfErr result (λ e. e ≡ WordsRefusal.NoMemory) }
{
    match all.push(owned(alloc, text)?) {
        Ok(()) => Ok(()),
        Err(_) => Err(WordsRefusal::NoMemory),
    }
}
