ghost use Rattle.std.specs.Prelude.{IfSome, IfNone};
ghost use Rattle.clap.specs.Words.{found_of, rows_of};
ghost use Rattle.m17_words.specs.declared.plan.Plan.{Plan};
ghost use Rattle.m17_words.specs.Plans.{IsPlan};

use crate::clap_words::{text_of, text_or};
use crate::values;
use clap::ArgMatches;
use m17_callsign::CallAddress;
use m17_control::Modules;

/// The most places of a reflector.
const PLACES_MAX: u64 = 256;

/// The limit on talking where the words name none, in seconds.
const LIMIT_UNNAMED: &str = "180";

// How a reflector is run, in a replay and where it serves.
#[derive(Clone, Copy)]
pub(crate) struct Plan {
    pub(crate) call: CallAddress,
    pub(crate) modules: Modules,
    pub(crate) parrots: Modules,
    pub(crate) places: u32,
    pub(crate) limit: u64,
}

// The plan that was found, with this callsign where none is.
pub(crate) fn plan_of<'a>(matches: &ArgMatches<'a>, call: &'a str) -> Option<Plan>
    ensures some { IfSome result (IsPlan (rows_of (found_of matches.now)) call.entry.now) }
    ensures none { IfNone result ((plan : Plan)
        → ¬ IsPlan (rows_of (found_of matches.now)) call.entry.now plan) }
{
    let call = values::call(text_or(matches, "call", call))?;
    let modules = values::modules(text_or(matches, "modules", "ABC"))?;
    let parrots = values::parrots(text_of(matches, "parrots"), &modules)?;
    let places = values::number(text_or(matches, "places", "64"), 1, PLACES_MAX)?;
    let limit = values::limit(text_or(matches, "limit", LIMIT_UNNAMED))?;
    Some(Plan {
        call,
        modules,
        parrots,
        places: places as u32,
        limit,
    })
}
