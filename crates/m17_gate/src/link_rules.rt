ghost use Rattle.std.specs.Prelude.{◌≡◌, ◌-◌, ℕ, [], All, IfOk, vec_len};
ghost use Rattle.m17_ports.specs.Ear.{IsNewEar};
ghost use Rattle.m17_gate.specs.Gated.{gate_told};
ghost use Rattle.m17_gate.specs.Links.{LinkRulesSeen, rules_at};

use crate::{Gate, QuickRules, Rules};
use m17_ports::Ear;
use m17_values::NoMemory;
use std::alloc::Global;
use std::marker::Model;

/// The rules for the gates of so many links, with all the memory that these need. Contracts see
/// the rules, and for how many links they are left.
#[derive(Drop)]
pub struct LinkRules {
    alloc: Global,
    rules: Rules,
    made: Vec<QuickRules>,
}

impl Model for LinkRules {
    ghost use Rattle.std.specs.Prelude.{◌≡◌, length};
    ghost use Rattle.std.specs.List.{All};
    ghost use Rattle.m17_gate.specs.Links.{LinkRulesSeen};

    ghost Value = { LinkRulesSeen };

    ghost view = { λ links. record { rules = links.rules; left = length links.made.items } };

    ghost invariant = { λ links. All (λ quick. quick ≡ links.rules) links.made.items };
}

impl LinkRules {
    /// These rules, for the gates of this many links.
    pub fn make(alloc: Global, rules: &Rules, links: usize) -> Result<LinkRules, NoMemory>
        ensures { IfOk result (λ made. made ≡ record { rules = rules.now; left = links }) }
    {
        let rules = rules.copy(alloc)?;
        let made = made_for(alloc, &rules, links)?;
        Ok(LinkRules { alloc, rules, made })
    }

    /// No rules: everything is allowed, at the gates of any number of links. It takes no memory.
    pub fn none(alloc: Global) -> LinkRules
        ensures { result ≡ record { rules = []; left = 0 } }
    {
        LinkRules {
            alloc,
            rules: Rules::new(alloc),
            made: Vec::new(alloc),
        }
    }

    /// The ear of the next link behind its gate. It takes no memory.
    pub fn before<E: Ear + Drop>(&mut self, ear: E) -> Gate<E>
        ensures gate { result ≡ record { inner = ear; rules = rules_at self.old 0 } }
        ensures left { self.new ≡ record self.old { left = self.old.left - 1 } }
        // A new ear is a new one still.
        ensures new { (call : ℕ) → IsNewEar call (E.told ear)
            → IsNewEar call (gate_told E.told result) }
    {
        Gate::with(ear, self.next())
    }

    // The rules for the gate of the next link. Where there are rules, but for no link more,
    // everything is denied there.
    fn next(&mut self) -> QuickRules
        ensures rules { result ≡ rules_at self.old 0 }
        ensures left { self.new ≡ record self.old { left = self.old.left - 1 } }
    {
        match self.made.pop() {
            Some(quick) => quick,
            None if self.rules.is_empty() => QuickRules::open(self.alloc),
            None => QuickRules::shut(self.alloc),
        }
    }
}

/// The same rules so many times.
fn made_for(alloc: Global, rules: &Rules, count: usize) -> Result<Vec<QuickRules>, NoMemory>
    ensures count { IfOk result (λ made. vec_len made ≡ count) }
    ensures each { IfOk result (λ made. All (λ quick. quick ≡ rules.now) made.items) }
{
    let mut made = Vec::with_capacity(alloc, count)?;
    while made.len() < count {
        let quick = QuickRules::make(alloc, rules)?;
        made.push_reserved(quick);
    }
    Ok(made)
}
