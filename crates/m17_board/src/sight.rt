//! What a poster keeps of its records.
ghost use Rattle.std.specs.Prelude.{◌≡◌, ◌-◌, ◌<◌, ◌≤◌, ◌^◌, ◌++◌, List, [], ◌∷◌};
ghost use Rattle.m17_board.specs.Glance.{glance_of, sight_of, talk_after};
ghost use Rattle.m17_book.specs.declared.record.Record.{Record};

use crate::glance::Glance;
use m17_book::Record;
use m17_values::{Address, Member};

/// Who talks.
#[derive(Clone, Copy, Debug, PartialEq, Eq)]
pub struct Talk {
    /// The member that sent the last admitted packet.
    pub member: Member,
    /// The sender that the packet names.
    pub src: Address,
}

/// What a glance is made of.
#[derive(Clone, Copy, Debug, PartialEq, Eq)]
pub struct Sight {
    pub records: u64,
    pub admitted: u64,
    pub moment: u64,
    pub talk: Option<Talk>,
}

impl Sight {
    // Of no records.
    pub(crate) fn first() -> Sight
        ensures { result ≡ sight_of [] }
    {
        Sight {
            records: 0,
            admitted: 0,
            moment: 0,
            talk: None,
        }
    }

    // What is shown.
    pub(crate) fn glance(&self, nobody: Address) -> Glance
        requires { nobody ≡ 0 }
        ensures { (rs : List Record) → self.now ≡ sight_of rs → result ≡ glance_of rs }
    {
        let (on, src) = match self.talk {
            Some(talk) => (true, talk.src),
            None => (false, nobody),
        };
        Glance {
            records: self.records,
            admitted: self.admitted,
            moment: self.moment,
            on,
            src,
        }
    }

    // With one record more.
    pub(crate) fn with_one(self, one: &Record) -> Sight
        requires room { self.records < 2 ^ 64 - 1 }
        requires fewer { self.admitted ≤ self.records }
        ensures { (rs : List Record) → self ≡ sight_of rs → result ≡ sight_of (rs ++ one.now ∷ []) }
    {
        Sight {
            records: self.records + 1,
            admitted: self.admitted + u64::from(is_admitted(one)),
            moment: moment_of(one),
            talk: talk_with(self.talk, one),
        }
    }
}

// Whether the record is an admitted packet.
fn is_admitted(one: &Record) -> bool
    ensures { result ≡ Rattle.m17_board.specs.Glance.is_admitted one.now }
{
    match one {
        Record::Packet { verdict, .. } => verdict.is_admitted(),
        Record::Join { .. } | Record::Leave { .. } => false,
    }
}

// The record's moment.
fn moment_of(one: &Record) -> u64
    ensures { result ≡ Rattle.m17_board.specs.Glance.moment_of one.now }
{
    match one {
        Record::Join { moment, .. }
        | Record::Leave { moment, .. }
        | Record::Packet { moment, .. } => *moment,
    }
}

// Who talks after one record more.
fn talk_with(talk: Option<Talk>, one: &Record) -> Option<Talk>
    ensures { result ≡ talk_after talk one.now }
{
    match one {
        Record::Packet {
            member,
            verdict,
            packet,
            ..
        } => {
            if !verdict.is_admitted() {
                return talk;
            }
            if packet.last {
                return None;
            }
            Some(Talk {
                member: *member,
                src: packet.lsd.src,
            })
        }
        Record::Leave { member, .. } => match talk {
            Some(talking) if talking.member == *member => None,
            other => other,
        },
        Record::Join { .. } => talk,
    }
}
