ghost use Rattle.std.specs.Prelude.{◌≡◌, ◌≢◌, ℕ, ◌+◌, ◌-◌, ◌^◌, ◌≤◌, [], ◌∷◌, count_by, Some};
ghost use Rattle.m17_io.specs.Faults.{HasRisen};
ghost use Rattle.m17_ports.specs.Told.{told_then};
ghost use Rattle.m17_ports.specs.Ear.{EndsPastCount};
ghost use Rattle.m17_port_memory.specs.Script.{IsAnswered, faults_of, heard_of, is_fault};

use m17_ports::Ear;
use m17_values::{Gram, Heard};
use std::marker::Model;

/// An ear that hands out a list, its script, and then `End` at every call.
#[derive(Debug, Drop)]
pub struct ScriptEar {
    script: Vec<Heard>,
    place: usize,
    ends: u64,
    number: u64,
}

impl Model for ScriptEar {
    ghost use Rattle.std.specs.Prelude.{◌≡◌, ◌+◌, ◌<◌, ◌≤◌, length};
    ghost use Rattle.m17_port_memory.specs.Kept.{ScriptKept};

    ghost Value = { ScriptKept };

    ghost view = { λ e. record {
      script = e.script.items;
      calls = e.place + e.ends;
      number = e.number;
    } };

    ghost invariant = { λ e. (e.place ≤ length e.script.items)
        × (e.place < length e.script.items → e.ends ≡ 0) };
}

impl ScriptEar {
    ghost use Rattle.m17_port_memory.specs.Kept.{ScriptKept, new_ear};

    /// An ear with this script, of which nothing was heard. Its number is 0.
    pub fn new(heard: Vec<Heard>) -> ScriptEar
        ensures { result ≡ new_ear heard.items 0 }
    {
        ScriptEar {
            script: heard,
            place: 0,
            ends: 0,
            number: 0,
        }
    }

    /// The script, with what was heard of it.
    pub fn into_script(self) -> Vec<Heard>
        ensures { result.items ≡ self.script }
    {
        self.script
    }

    // The ear as it was when it was new, with this number.
    pub(crate) fn renewed(self, number: u64) -> ScriptEar
        ensures { result ≡ new_ear self.script number }
    {
        ScriptEar {
            script: self.script,
            place: 0,
            ends: 0,
            number,
        }
    }

    // Answers the next call.
    fn next(&mut self) -> Heard
        ensures { IsAnswered self.old result self.new }
    {
        if self.place < self.script.len() {
            let entry = copy_of(&self.script[self.place]);
            self.place += 1;
            entry
        } else {
            self.ends = self.ends.saturating_add(1);
            Heard::End
        }
    }
}

impl Ear for ScriptEar {
    ghost use Rattle.std.proofs.Math.Nat.{min-le_right};
    ghost use Rattle.m17_port_memory.specs.Script.{told-follows};
    ghost use Rattle.m17_port_memory.specs.Tells.{script_ear_told};

    type Label = ();

    ghost told = { script_ear_told };

    ghost faults_fit = { λ e. min-le_right (count_by is_fault (heard_of e.script e.calls))
        (2 ^ 64 - 1) };

    ghost follows_script = { λ e. told-follows e.script e.calls };

    fn hear(&mut self) -> Heard
        ensures answered { IsAnswered self.old result self.new }
        ensures counted { faults_of self.old ≤ faults_of self.new }
        ensures fault { result ≡ Heard.Fault → HasRisen (faults_of self.old) (faults_of self.new) }
        ensures no_fault { result ≢ Heard.Fault → faults_of self.new ≡ faults_of self.old }
        ensures appended { (EndsPastCount (Some (heard_of self.old.script self.old.calls)) → ⊥)
            → Some (heard_of self.new.script self.new.calls)
            ≡ told_then (Some (heard_of self.old.script self.old.calls)) (result ∷ []) }
        ensures same_device { (self.new.script ≡ self.old.script) × (self.new.number ≡ self.old.number) }
    {
        self.next()
    }
}

// The same entry.
fn copy_of(entry: &Heard) -> Heard
    ensures { result ≡ entry.now }
{
    match entry {
        Heard::Datagram { from, at, bytes } => Heard::Datagram {
            from: *from,
            at: *at,
            bytes: Gram::of(bytes.bytes()),
        },
        Heard::Quiet { at } => Heard::Quiet { at: *at },
        Heard::Fault => Heard::Fault,
        Heard::End => Heard::End,
    }
}
