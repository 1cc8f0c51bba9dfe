ghost use Rattle.std.specs.Prelude.{◌≡◌, string_bytes, IfOk, IfErr, IfSome, IfNone};
ghost use Rattle.clap.specs.Words.{found_of, rows_of};
ghost use Rattle.m17_words.specs.declared.command.Command.{Command};
ghost use Rattle.m17_words.specs.declared.order.BridgeOrder.{BridgeOrder};
ghost use Rattle.m17_words.specs.BridgeValues.{HasBridgeValues};
ghost use Rattle.m17_words.specs.Words.{IsBridge, IsBridgeWith};

use crate::clap_words::{text_of, text_or};
use crate::serve_words::SECONDS_MAX;
use crate::talk_words::{book_of, owned};
use crate::{BridgeOrder, Command, WordsRefusal, values};
use clap::ArgMatches;
use m17_callsign::CallAddress;
use m17_control::ModuleLetter;
use m17_values::Peer;
use std::alloc::Global;

// The values of a bridge that take no memory.
#[derive(Clone, Copy)]
pub(crate) struct BridgeValues {
    call: CallAddress,
    near_peer: Peer,
    near_letter: ModuleLetter,
    far_peer: Peer,
    far_letter: ModuleLetter,
    seconds: Option<u64>,
}

// A bridge with the values that were found.
pub(crate) fn bridge_of(alloc: Global, matches: &ArgMatches) -> Result<Command, WordsRefusal>
    ensures given { IfOk result (IsBridgeWith (rows_of (found_of matches.now))) }
    ensures refused { result ≡ Err WordsRefusal.Refused → (command : Command)
        → ¬ IsBridgeWith (rows_of (found_of matches.now)) command }
{
    match bridge_values(matches) {
        Some(values) => bridge_with(alloc, matches, &values),
        None => Err(WordsRefusal::Refused),
    }
}

// The values that were found.
fn bridge_values(matches: &ArgMatches) -> Option<BridgeValues>
    ensures some { IfSome result (HasBridgeValues (rows_of (found_of matches.now))) }
    ensures none { IfNone result ((order : BridgeOrder)
        → ¬ IsBridge (rows_of (found_of matches.now)) order) }
{
    let call = values::call(text_or(matches, "call", ""))?;
    let near_peer = values::peer(text_or(matches, "near-peer", ""))?;
    let near_letter = values::letter(text_or(matches, "near-module", ""))?;
    let far_peer = values::peer(text_or(matches, "far-peer", ""))?;
    let far_letter = values::letter(text_or(matches, "far-module", ""))?;
    let seconds = values::number_if_any(text_of(matches, "for"), 1, SECONDS_MAX)?;
    Some(BridgeValues {
        call,
        near_peer,
        near_letter,
        far_peer,
        far_letter,
        seconds,
    })
}

// A bridge with these values, and the texts that were found.
fn bridge_with(
    alloc: Global,
    matches: &ArgMatches,
    values: &BridgeValues,
) -> Result<Command, WordsRefusal>
    requires { HasBridgeValues (rows_of (found_of matches.now)) values.now }
    ensures bridge { IfOk result (IsBridgeWith (rows_of (found_of matches.now))) }
    ensures memory { IfErr result (λ e. e ≡ WordsRefusal.NoMemory) }
{
    let near = owned(alloc, text_or(matches, "near", ""))?;
    let far = owned(alloc, text_or(matches, "far", ""))?;
    let stop = book_of(alloc, text_of(matches, "stop"))?;
    Ok(Command::Bridge(BridgeOrder {
        call: values.call,
        near,
        near_peer: values.near_peer,
        near_letter: values.near_letter,
        far,
        far_peer: values.far_peer,
        far_letter: values.far_letter,
        seconds: values.seconds,
        stop,
    }))
}
