ghost use Rattle.std.specs.Prelude.{◌≡◌, IfOk, IfErr, false, map};
ghost use Rattle.clap.specs.Words.{app_of, rule_of, with_rule};
ghost use Rattle.m17_words.specs.First.{table_of_word};
ghost use Rattle.m17_words.specs.Listed.{rule_for, rules_for};
ghost use Rattle.m17_words.specs.Tables.{bare, table_of};

use crate::WordsRefusal;
use crate::first::FirstWord;
use clap::{Arg, ArgAction, Command};
use std::alloc::Global;

// What kind of option or argument a name is.
#[derive(Clone, Copy)]
pub(crate) enum Kind {
    // an option with a value
    Value,
    // the same, and it has to be there
    Needed,
    Flag,
    // an argument that has to be there
    Argument,
    // the same, once or more often
    Arguments,
}

// The options and arguments of a command, in the order of its table.
const REPLAY: &[(&str, Kind)] = &[
    ("call", Kind::Value),
    ("modules", Kind::Value),
    ("parrots", Kind::Value),
    ("places", Kind::Value),
    ("summary", Kind::Flag),
    ("limit", Kind::Value),
    ("threads", Kind::Flag),
];

const MAKE: &[(&str, Kind)] = &[("seed", Kind::Argument), ("count", Kind::Argument)];

const TALK: &[(&str, Kind)] = &[
    ("call", Kind::Needed),
    ("module", Kind::Needed),
    ("bind", Kind::Needed),
    ("to", Kind::Needed),
    ("listen", Kind::Flag),
    ("stay", Kind::Value),
    ("book", Kind::Value),
];

const BRIDGE: &[(&str, Kind)] = &[
    ("call", Kind::Needed),
    ("near", Kind::Needed),
    ("near-peer", Kind::Needed),
    ("near-module", Kind::Needed),
    ("far", Kind::Needed),
    ("far-peer", Kind::Needed),
    ("far-module", Kind::Needed),
    ("for", Kind::Value),
    ("stop", Kind::Value),
];

const SERVE: &[(&str, Kind)] = &[
    ("call", Kind::Needed),
    ("modules", Kind::Value),
    ("parrots", Kind::Value),
    ("places", Kind::Value),
    ("for", Kind::Value),
    ("book", Kind::Value),
    ("bind", Kind::Arguments),
    ("limit", Kind::Value),
    ("rules", Kind::Flag),
    ("board", Kind::Value),
    ("fill-crc", Kind::Flag),
    ("no-guard", Kind::Flag),
    ("pace", Kind::Value),
    ("stop", Kind::Value),
];

// The table of a command.
#[tactic(auto, unfolding(crate::specs::Tables::judge_table, crate::specs::Tables::show_table, crate::specs::Tables::replay_table, crate::specs::Tables::make_table, crate::specs::Tables::check_table, crate::specs::Tables::migrate_table, crate::specs::Tables::talk_table, crate::specs::Tables::serve_table, crate::specs::Tables::bridge_table))]
pub(crate) fn table<'a>(alloc: Global, word: FirstWord) -> Result<Command<'a>, WordsRefusal>
    ensures table { IfOk result (λ c. app_of c ≡ table_of_word word) }
    ensures memory { IfErr result (λ e. e ≡ WordsRefusal.NoMemory) }
{
    match word {
        FirstWord::Judge => Ok(bare(alloc, "judge")),
        FirstWord::Show => Ok(bare(alloc, "show")),
        FirstWord::Replay => listed(alloc, "replay", REPLAY),
        FirstWord::Make => listed(alloc, "make", MAKE),
        FirstWord::Check => Ok(bare(alloc, "check")),
        FirstWord::Migrate => Ok(bare(alloc, "migrate")),
        FirstWord::Talk => listed(alloc, "talk", TALK),
        FirstWord::Serve => listed(alloc, "serve", SERVE),
        FirstWord::Bridge => listed(alloc, "bridge", BRIDGE),
    }
}

// A command with these options and arguments.
fn listed<'a>(
    alloc: Global,
    name: &'a str,
    options: &[(&'a str, Kind)],
) -> Result<Command<'a>, WordsRefusal>
    ensures table { IfOk result (λ c. app_of c
        ≡ table_of name.entry.now (rules_for options.entry.now)) }
    ensures memory { IfErr result (λ e. e ≡ WordsRefusal.NoMemory) }
{
    let mut command = bare(alloc, name);
    for (option, kind) in options {
        command = with(command, arg(alloc, option, *kind))?;
    }
    Ok(command)
}

// A command without flags for help and for the version, which is given the words after its own.
fn bare<'a>(alloc: Global, name: &'a str) -> Command<'a>
    ensures { app_of result ≡ bare name.entry.now }
{
    Command::new(alloc, name)
        .no_binary_name(true)
        .disable_help_flag(true)
        .disable_version_flag(true)
}

// The option or argument of a name.
fn arg<'a>(alloc: Global, name: &'a str, kind: Kind) -> Arg<'a>
    ensures rule { rule_of result ≡ rule_for name.entry.now kind }
    ensures own { result.global ≡ false }
{
    let arg = Arg::new(alloc, name);
    match kind {
        Kind::Value => arg.long(name),
        Kind::Needed => arg.long(name).required(true),
        Kind::Flag => arg.long(name).action(ArgAction::SetTrue),
        Kind::Argument => arg.required(true),
        Kind::Arguments => arg.required(true).num_args(1..),
    }
}

// The command with one more option or argument.
fn with<'a>(command: Command<'a>, arg: Arg<'a>) -> Result<Command<'a>, WordsRefusal>
    requires { arg.global ≡ false }
    ensures with { IfOk result (λ c. app_of c
        ≡ with_rule (app_of command.entry) (rule_of arg.entry)) }
    ensures memory { IfErr result (λ e. e ≡ WordsRefusal.NoMemory) }
{
    match command.arg(arg) {
        Ok(command) => Ok(command),
        Err(_) => Err(WordsRefusal::NoMemory),
    }
}
