ghost use Rattle.std.specs.Prelude.{◌≡◌, ◌↔◌, [], ◌∷◌, ◌++◌, IsTrue, IfOk, OnOk};
ghost use Rattle.m17_callsign.specs.Letters.{callsign_of};
ghost use Rattle.m17_gate.specs.Fits.{address_in, allows, allows_asked, fits, is_about, is_allow, matches_address, serves_module};

use crate::asked::asked_by;
use crate::{Act, Asked, Kind, Letters, Pattern, Rule};
use m17_callsign::{CallText, text};
use m17_control::{Modules, Packet};
use m17_values::{Address, NoMemory};
use std::alloc::Global;
use std::marker::Model;

/// Rules, of which the first that fits decides. Contracts see the list.
#[derive(Debug, Drop)]
pub struct Rules {
    list: Vec<Rule>,
}

impl Model for Rules {
    ghost use Rattle.std.specs.Prelude.{List};
    ghost use Rattle.m17_gate.specs.declared.rule.Rule.{Rule};

    ghost Value = { List Rule };

    ghost view = { λ rules. rules.list.items };
}

impl Rules {
    /// No rules: everything is allowed.
    pub(crate) fn new(alloc: Global) -> Rules
        ensures { result ≡ [] }
    {
        Rules {
            list: Vec::new(alloc),
        }
    }

    /// Whether there are none.
    pub(crate) fn is_empty(&self) -> bool
        ensures { IsTrue result ↔ (self.now ≡ []) }
    {
        self.list.is_empty()
    }

    /// Puts a rule behind the others.
    pub(crate) fn push(&mut self, rule: Rule) -> Result<(), NoMemory>
        ensures { OnOk result (self.new ≡ self.old ++ rule ∷ []) }
    {
        // The types inside a rule: the check finds their modules only where a function names them.
        let _parts: (
            Option<Act>,
            Option<Kind>,
            Option<Modules>,
            Option<Pattern>,
            Option<Letters>,
        ) = (None, None, None, None, None);
        self.list.push(rule)?;
        Ok(())
    }

    /// The same rules.
    pub(crate) fn copy(&self, alloc: Global) -> Result<Rules, NoMemory>
        ensures { IfOk result (λ rules. rules ≡ self.now) }
    {
        let list = self.list.to_vec(alloc)?;
        Ok(Rules { list })
    }

    /// Whether this is allowed: as the first rule that fits says, and where none fits.
    pub(crate) fn allow(&self, asked: &Asked) -> bool
        ensures { result ≡ allows_asked self.now asked.now }
    {
        decide(self.list.as_slice(), asked, &text(address_of(asked)))
    }
}

/// Whether the packet is allowed: a CONN or a LSTN by its sender and its module, a stream packet
/// by the sender that its link setup data name, as the first rule says that fits, and where none
/// fits. Every other packet is allowed.
pub fn allowed(rules: &Rules, p: &Packet) -> bool
    ensures { result ≡ allows rules.now p.now }
{
    match asked_by(p) {
        Some(asked) => rules.allow(&asked),
        None => true,
    }
}

/// What the first of these rules says that fits, and true where none fits. `callsign` is that of
/// the address, if it has one.
fn decide(rules: &[Rule], asked: &Asked, callsign: &Option<CallText>) -> bool
    requires { callsign.now ≡ callsign_of (address_in asked.now) }
    ensures { result ≡ allows_asked rules.now asked.now }
{
    for rule in rules {
        if is_fit(rule, asked, callsign) {
            return lets_through(rule.act);
        }
    }
    true
}

/// Whether those are let through whom a rule with this act fits.
fn lets_through(act: Act) -> bool
    ensures { result ≡ is_allow act }
{
    match act {
        Act::Allow => true,
        Act::Deny => false,
    }
}

/// Whose address it is.
fn address_of(asked: &Asked) -> Address
    ensures { result ≡ address_in asked.now }
{
    match asked {
        Asked::Connects { from, .. } => *from,
        Asked::Listens { from, .. } => *from,
        Asked::Talks { src } => *src,
    }
}

/// Whether the rule fits, where `callsign` is that of the address, if it has one.
fn is_fit(rule: &Rule, asked: &Asked, callsign: &Option<CallText>) -> bool
    requires { callsign.now ≡ callsign_of (address_in asked.now) }
    ensures { result ≡ fits rule.now asked.now }
{
    match asked {
        Asked::Connects { from, module } => {
            is_about_kind(rule.kind, Kind::Conn)
                && has_module(&rule.modules, *module)
                && is_match(&rule.pattern, *from, callsign)
        }
        Asked::Listens { from, module } => {
            is_about_kind(rule.kind, Kind::Lstn)
                && has_module(&rule.modules, *module)
                && is_match(&rule.pattern, *from, callsign)
        }
        Asked::Talks { src } => {
            is_about_kind(rule.kind, Kind::Talk)
                && rule.modules.is_none()
                && is_match(&rule.pattern, *src, callsign)
        }
    }
}

/// Whether a rule of the first kind is about the second, which is one of packets.
fn is_about_kind(kind: Kind, asked: Kind) -> bool
    ensures { result ≡ is_about kind asked }
{
    match (kind, asked) {
        (Kind::Any, _) => true,
        (Kind::Conn, Kind::Conn) => true,
        (Kind::Lstn, Kind::Lstn) => true,
        (Kind::Talk, Kind::Talk) => true,
        _ => false,
    }
}

/// Whether the module is one of these, or these are every module.
fn has_module(modules: &Option<Modules>, letter: u8) -> bool
    ensures { result ≡ serves_module modules.now letter }
{
    match modules {
        Some(modules) => modules.has(letter),
        None => true,
    }
}

/// Whether the pattern matches the address, where `callsign` is its callsign, if it has one.
fn is_match(pattern: &Pattern, address: Address, callsign: &Option<CallText>) -> bool
    requires { callsign.now ≡ callsign_of address }
    ensures { result ≡ matches_address pattern.now address }
{
    match pattern {
        Pattern::Every => true,
        Pattern::One(call) => call.value() == address.value(),
        Pattern::Begin(front) => match callsign {
            Some(callsign) => callsign.as_str().as_bytes().starts_with(front.as_bytes()),
            None => false,
        },
    }
}
