ghost use Rattle.std.specs.Prelude.{◌≡◌, string_bytes, IfOk, IfErr, IfSome, IfNone, option_map};
ghost use Rattle.clap.specs.Words.{found_of, rows_of};
ghost use Rattle.m17_words.specs.declared.command.Command.{Command};
ghost use Rattle.m17_words.specs.declared.order.TalkOrder.{TalkOrder};
ghost use Rattle.m17_words.specs.TalkValues.{HasValues};
ghost use Rattle.m17_words.specs.Words.{IsTalk, IsTalkWith};

use crate::clap_words::{is_there, text_of, text_or};
use crate::{Command, TalkOrder, WordsRefusal, values};
use clap::ArgMatches;
use m17_callsign::CallAddress;
use m17_control::ModuleLetter;
use m17_values::Peer;
use std::alloc::Global;

/// For how many milliseconds a client may stay at the most: a day.
const STAY_MAX: u64 = 86_400_000;

// The values of a talk that take no memory.
#[derive(Clone, Copy)]
pub(crate) struct TalkValues {
    call: CallAddress,
    letter: ModuleLetter,
    to: Peer,
    stay: u64,
}

// A talk with the values that were found.
pub(crate) fn talk_of(alloc: Global, matches: &ArgMatches) -> Result<Command, WordsRefusal>
    ensures given { IfOk result (IsTalkWith (rows_of (found_of matches.now))) }
    ensures refused { result ≡ Err WordsRefusal.Refused → (command : Command)
        → ¬ IsTalkWith (rows_of (found_of matches.now)) command }
{
    match talk_values(matches) {
        Some(values) => talk_with(alloc, matches, &values),
        None => Err(WordsRefusal::Refused),
    }
}

// The values that were found.
fn talk_values(matches: &ArgMatches) -> Option<TalkValues>
    ensures some { IfSome result (HasValues (rows_of (found_of matches.now))) }
    ensures none { IfNone result ((order : TalkOrder)
        → ¬ IsTalk (rows_of (found_of matches.now)) order) }
{
    let call = values::call(text_or(matches, "call", ""))?;
    let letter = values::letter(text_or(matches, "module", ""))?;
    let to = values::peer(text_or(matches, "to", ""))?;
    let stay = values::number(text_or(matches, "stay", "0"), 0, STAY_MAX)?;
    Some(TalkValues {
        call,
        letter,
        to,
        stay,
    })
}

// A talk with these values, and the texts that were found.
fn talk_with(
    alloc: Global,
    matches: &ArgMatches,
    values: &TalkValues,
) -> Result<Command, WordsRefusal>
    requires { HasValues (rows_of (found_of matches.now)) values.now }
    ensures talk { IfOk result (IsTalkWith (rows_of (found_of matches.now))) }
    ensures memory { IfErr result (λ e. e ≡ WordsRefusal.NoMemory) }
{
    let bind = owned(alloc, text_or(matches, "bind", ""))?;
    let book = book_of(alloc, text_of(matches, "book"))?;
    Ok(Command::Talk(TalkOrder {
        call: values.call,
        letter: values.letter,
        listen: is_there(matches, "listen"),
        bind,
        to: values.to,
        stay: values.stay,
        book,
    }))
}

// A text of its own.
pub(crate) fn owned(alloc: Global, text: &str) -> Result<String, WordsRefusal>
    ensures same { IfOk result (λ s. string_bytes s ≡ text.now) }
    ensures memory { IfErr result (λ e. e ≡ WordsRefusal.NoMemory) }
{
    match String::from_str(alloc, text) {
        Ok(text) => Ok(text),
        Err(_) => Err(WordsRefusal::NoMemory),
    }
}

// The name of a book, where there is one.
pub(crate) fn book_of(alloc: Global, name: Option<&str>) -> Result<Option<String>, WordsRefusal>
    ensures same { IfOk result (λ book. option_map string_bytes book
        ≡ option_map (λ s. s.now) name.entry) }
    ensures memory { IfErr result (λ e. e ≡ WordsRefusal.NoMemory) }
{
    match name {
        Some(name) => match owned(alloc, name) {
            Ok(name) => Ok(Some(name)),
            Err(refusal) => Err(refusal),
        },
        None => Ok(None),
    }
}
