ghost use Rattle.std.specs.Prelude.{◌≡◌, ◌<◌, ◌^◌, [], IfOk, is_some, length};
ghost use Rattle.m17_gate.specs.Gated.{is_denied};
ghost use Rattle.m17_gate.specs.Asking.{asked_in};
ghost use Rattle.m17_gate.specs.Fits.{allows_asked, deny_all};
ghost use Rattle.m17_gate.specs.Answers.{AreRight};
ghost use Rattle.m17_gate.specs.declared.asked.Asked.TheVariants.{Talks};

use crate::asked::asked_by;
use crate::{Asked, Rules, allowed, laws};
use m17_control::decode;
use m17_fields::get_48;
use m17_values::{Address, NoMemory};
use std::alloc::Global;
use std::marker::Model;

/// How many answers are kept. Two senders may share a place, and then take turns in it.
const ANSWERS: usize = 256;

/// How many bytes a stream packet has, and no other packet.
const TALK_BYTES: usize = 54;

/// Where its sender's address begins.
const SENDER_AT: usize = 12;

/// Whether a sender may speak.
#[derive(Clone, Copy, Debug)]
pub(crate) struct Answer {
    src: u64,
    allows: bool,
}

/// Rules as one gate asks them: with the last answers that they gave to senders, so that all rules
/// are looked at for a new sender alone. All the memory that a gate needs is here; where there are
/// no rules, or everything is denied, it needs none. Contracts see the list of rules.
#[derive(Debug, Drop)]
pub struct QuickRules {
    rules: Rules,
    answers: Vec<Answer>,
    shut: bool,
}

impl Model for QuickRules {
    ghost use Rattle.std.specs.Prelude.{List};
    ghost use Rattle.m17_gate.specs.Answers.{AreReady, rules_or_none_may};
    ghost use Rattle.m17_gate.specs.declared.rule.Rule.{Rule};

    ghost Value = { List Rule };

    ghost view = { λ quick. rules_or_none_may quick.shut quick.rules };

    ghost invariant = { λ quick. AreReady quick.shut quick.rules quick.answers.items };
}

impl QuickRules {
    /// These rules, for one gate. Where there are none, it takes no memory.
    pub fn make(alloc: Global, rules: &Rules) -> Result<QuickRules, NoMemory>
        ensures { IfOk result (λ quick. quick ≡ rules.now) }
    {
        if rules.is_empty() {
            return Ok(QuickRules::open(alloc));
        }
        let rules = rules.copy(alloc)?;
        let nobody = Answer {
            src: 0,
            allows: may_talk(&rules, 0),
        };
        let answers = vec![in alloc; nobody; ANSWERS]?;
        Ok(QuickRules {
            rules,
            answers,
            shut: false,
        })
    }

    /// No rules, for one gate: everything is allowed. It takes no memory.
    pub fn open(alloc: Global) -> QuickRules
        ensures { result ≡ [] }
    {
        QuickRules {
            rules: Rules::new(alloc),
            answers: Vec::new(alloc),
            shut: false,
        }
    }

    /// For one gate the one rule that denies everything. It takes no memory.
    pub fn shut(alloc: Global) -> QuickRules
        ensures { result ≡ deny_all }
    {
        QuickRules {
            rules: Rules::new(alloc),
            answers: Vec::new(alloc),
            shut: true,
        }
    }

    /// Whether the bytes ask what the rules deny. Without rules nothing is read of them; of a
    /// stream packet whose sender may speak only the address is.
    pub(crate) fn denies(&mut self, bytes: &[u8]) -> bool
        ensures answer { result ≡ is_denied self.old bytes.now }
        ensures same { self.new ≡ self.old }
    {
        if self.shut {
            return is_denied_to_all(bytes);
        }
        if self.rules.is_empty() {
            return false;
        }
        if bytes.len() != TALK_BYTES {
            return is_denied_by(&self.rules, bytes);
        }
        if lets_talk(&self.rules, &mut self.answers, get_48(bytes, SENDER_AT)) {
            return false;
        }
        asks_to_talk(bytes)
    }
}

/// Whether the sender may speak by these rules. It is looked for among the last answers, and then
/// becomes one.
fn lets_talk(rules: &Rules, answers: &mut Vec<Answer>, src: u64) -> bool
    requires sender { src < 2 ^ 48 }
    requires right { AreRight rules.now answers.old.items }
    ensures answer { result ≡ allows_asked rules.now (Talks src) }
    ensures right { AreRight rules.now answers.new.items }
{
    let place = place_for(src);
    let last = answers[place];
    if last.src == src {
        return last.allows;
    }
    let allows = may_talk(rules, src);
    answers[place] = Answer { src, allows };
    allows
}

/// Whether the bytes spell a packet that is denied where everything is.
fn is_denied_to_all(bytes: &[u8]) -> bool
    ensures { result ≡ is_denied deny_all bytes.now }
{
    laws::bytes_ask_as_packets();
    match decode(bytes) {
        Ok(packet) => asked_by(&packet).is_some(),
        Err(_) => false,
    }
}

/// Whether the bytes, which are as many as a stream packet has, spell one.
fn asks_to_talk(bytes: &[u8]) -> bool
    requires { length bytes.now ≡ 54 }
    ensures { result ≡ is_some (asked_in bytes.now) }
{
    laws::bytes_ask_as_packets();
    match decode(bytes) {
        Ok(_) => true,
        Err(_) => false,
    }
}

/// Whether the bytes spell a packet that is not allowed.
fn is_denied_by(rules: &Rules, bytes: &[u8]) -> bool
    ensures { result ≡ is_denied rules.now bytes.now }
{
    laws::bytes_ask_as_packets();
    match decode(bytes) {
        Ok(packet) => !allowed(rules, &packet),
        Err(_) => false,
    }
}

/// Whether the sender may speak, by all rules.
fn may_talk(rules: &Rules, src: u64) -> bool
    requires { src < 2 ^ 48 }
    ensures { result ≡ allows_asked rules.now (Talks src) }
{
    rules.allow(&Asked::Talks {
        src: Address::new(src).unwrap(),
    })
}

/// The place of a sender among the answers: all of its letters count.
fn place_for(src: u64) -> usize
    ensures { result < 256 }
{
    ((src ^ (src >> 13) ^ (src >> 26) ^ (src >> 39)) % ANSWERS as u64) as usize
}
