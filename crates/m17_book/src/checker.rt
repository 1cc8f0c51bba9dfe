ghost use Rattle.std.specs.Prelude.{◌≡◌, ◌<◌, ◌≤◌, ℕ, ◌-◌, ◌^◌, List, [], ◌∷◌, ◌++◌, length, max, Some, None, Err, IfErr, OnErr};
ghost use Rattle.m17_floor.specs.declared.act.Act.{Act};
ghost use Rattle.m17_floor.specs.Acts.{moment_before};
ghost use Rattle.m17_floor.specs.Floor.{admits, opens};
ghost use Rattle.m17_floor.specs.StandsFor.{packet_act, join_act, leave_act};
ghost use Rattle.m17_book.specs.Checks.{kept_by, report_of, TellsOfBook};
ghost use Rattle.m17_book.specs.Checked.{HasChecked, ChecksNext};
ghost use Rattle.m17_book.specs.Roster.{RosterStandsFor, Follows};
ghost use Rattle.m17_book.specs.Tried.{Tries, HasSeen};
ghost use Rattle.m17_book.specs.declared.record.Record.{Record};
ghost use Rattle.m17_book.specs.declared.report.Breach.{Breach};

use crate::roster::Roster;
use crate::{Breach, Record, Report};
use m17_floor::{Rule, Verdict, laws as floor_laws};
use m17_stream::StreamPacket;
use m17_values::Member;
use std::marker::Model;

/// Checks the records of a book one by one, in fixed memory: who is in, a frame of each, and the floor.
#[derive(Debug, Drop)]
pub struct Checker {
    roster: Roster,
    moment: u64,
    report: Report,
    breach: Option<Breach>,
}

impl Model for Checker {
    ghost use Rattle.m17_book.specs.Checked.{Checking};

    ghost Value = { Checking };

    ghost view = { λ c. record {
      people = c.roster;
      moment = c.moment;
      report = c.report;
      breach = c.breach;
    } };
}

// The moment of a record.
#[inline]
fn moment_of(one: &Record) -> u64
    ensures { result ≡ (kept_by one.now).act.at }
{
    match one {
        Record::Join { moment, .. } => *moment,
        Record::Leave { moment, .. } => *moment,
        Record::Packet { moment, .. } => *moment,
    }
}

// Whether the record's packet opened the floor.
#[inline]
fn is_opened(one: &Record) -> bool
    ensures { result ≡ opens (kept_by one.now).verdict }
{
    match one {
        Record::Packet { verdict, .. } => matches!(verdict, Verdict::Opened),
        _ => false,
    }
}

// Whether the record's packet was admitted.
#[inline]
fn is_admitted(one: &Record) -> bool
    ensures { result ≡ admits (kept_by one.now).verdict }
{
    match one {
        Record::Packet { verdict, .. } => verdict.is_admitted(),
        _ => false,
    }
}

// The report with one record more.
#[inline]
fn counted(report: &Report, one: &Record) -> Report
    ensures { (records : List Record) → length records < 2 ^ 64 - 1
        → report.now ≡ report_of records → result ≡ report_of (records ++ one.now ∷ []) }
{
    Report {
        records: report.records.saturating_add(1),
        streams: report.streams.saturating_add(u64::from(is_opened(one))),
        admitted: report.admitted.saturating_add(u64::from(is_admitted(one))),
    }
}

// A Join: it is at a place where nobody is in, and then the member comes in.
fn come(roster: &mut Roster, k: Member, listens: bool) -> Option<Rule>
    ensures { (limit : ℕ) → (acts : List Act) → (at : ℕ) → RosterStandsFor limit acts roster.old
        → Follows result limit acts (record { act = join_act at k listens; verdict = None }) roster.new }
{
    match roster.stay_at(k.place) {
        Some(_) => Some(Rule::Member),
        None => {
            roster.join(k, listens);
            None
        }
    }
}

// A Leave: it is of a member that is in, and then it leaves.
fn go(roster: &mut Roster, k: Member) -> Option<Rule>
    ensures { (limit : ℕ) → (acts : List Act) → (at : ℕ) → RosterStandsFor limit acts roster.old
        → Follows result limit acts (record { act = leave_act at k; verdict = None }) roster.new }
{
    match roster.listens(k) {
        None => Some(Rule::Member),
        Some(_) => {
            roster.leave(k);
            None
        }
    }
}

// A packet: its verdict is that of the floor rule. `at` is its moment, the greatest so far.
fn hear(roster: &mut Roster, k: Member, at: u64, p: &StreamPacket, kept: Verdict) -> Option<Rule>
    ensures { (limit : ℕ) → (acts : List Act) → at ≡ max (moment_before acts (length acts)) at
        → RosterStandsFor limit acts roster.old
        → Follows result limit acts (record { act = packet_act at k p.now; verdict = Some kept })
        roster.new }
{
    floor_laws::one_act_more_goes_by_what_is_left();
    if roster.judge(k, at, p) == kept {
        None
    } else {
        Some(Rule::Verdict)
    }
}

// The rule on members or on verdicts that the record breaks; none where it keeps both, and then the roster follows it.
fn follow(roster: &mut Roster, one: &Record) -> Option<Rule>
    ensures { (limit : ℕ) → (acts : List Act) → (kept_by one.now).act.at
        ≡ max (moment_before acts (length acts)) (kept_by one.now).act.at
        → RosterStandsFor limit acts roster.old
        → Follows result limit acts (kept_by one.now) roster.new }
{
    match one {
        Record::Join { member, listen, .. } => come(roster, *member, *listen),
        Record::Leave { member, .. } => go(roster, *member),
        Record::Packet {
            moment,
            member,
            verdict,
            packet,
            ..
        } => hear(roster, *member, *moment, packet, *verdict),
    }
}

impl Checker {
    /// A checker under this limit on talking, in milliseconds, which is none where it is 0. It has gone through no record.
    pub fn new(limit: u64) -> Checker
        ensures { HasChecked limit result [] }
    {
        floor_laws::books_are_judged_act_by_act();
        Checker {
            roster: Roster::new(limit),
            moment: 0,
            report: Report {
                records: 0,
                streams: 0,
                admitted: 0,
            },
            breach: None,
        }
    }

    /// Checks the next record. A breach names the record and the first rule that it breaks, in the order of `Rule`; after
    /// it the checker answers that breach again, goes through nothing more, and its report stands as it was. Its counts
    /// end at `2^64 - 1`: it says what it promises of fewer records.
    pub fn next(&mut self, one: &Record) -> Result<(), Breach>
        ensures checks { (limit : ℕ) → (records : List Record) → HasChecked limit self.old records
            → length records < 2 ^ 64 - 1 → ChecksNext result limit self.new records one.now }
        ensures broken { IfErr result (λ breach. self.new.breach ≡ Some breach) }
        ensures uncounted { OnErr result (self.new.report ≡ self.old.report) }
        ensures again { (breach : Breach) → self.old.breach ≡ Some breach
            → (result ≡ Err breach) × (self.new ≡ self.old) }
    {
        floor_laws::books_are_judged_act_by_act();
        floor_laws::the_greatest_moment_counts();
        if let Some(breach) = self.breach {
            return Err(breach);
        }
        match self.try_rules(one) {
            None => {
                self.report = counted(&self.report, one);
                Ok(())
            }
            Some(rule) => {
                let breach = Breach {
                    position: self.report.records,
                    rule,
                };
                self.breach = Some(breach);
                Err(breach)
            }
        }
    }

    // Checks the next record, if no breach was found before.
    pub(crate) fn see(&mut self, one: &Record)
        ensures { (limit : ℕ) → (records : List Record) → HasSeen limit self.old records
            → length records < 2 ^ 64 - 1 → HasSeen limit self.new (records ++ one.now ∷ []) }
    {
        floor_laws::books_are_judged_act_by_act();
        let _ = self.next(one);
    }

    // What was found of the records that the checker was shown.
    pub(crate) fn outcome(&self) -> Result<Report, Breach>
        ensures { (limit : ℕ) → (records : List Record) → HasSeen limit self.now records
            → TellsOfBook limit result records }
    {
        match self.breach {
            Some(breach) => Err(breach),
            None => Ok(self.report),
        }
    }

    // The first rule that the record breaks; none where it keeps them all, and then the roster follows it.
    fn try_rules(&mut self, one: &Record) -> Option<Rule>
        ensures tries { (limit : ℕ) → (records : List Record) → HasChecked limit self.old records
            → Tries result limit self.new records one.now }
        ensures report { self.new.report ≡ self.old.report }
        ensures breach { self.new.breach ≡ self.old.breach }
    {
        let at = moment_of(one);
        if at < self.moment {
            return Some(Rule::Moment);
        }
        self.moment = at;
        follow(&mut self.roster, one)
    }

    /// What the records hold that the checker has gone through.
    pub fn report(&self) -> Report
        ensures counted { (limit : ℕ) → (records : List Record) → HasChecked limit self.now records
            → result ≡ report_of records }
        ensures kept { result ≡ self.now.report }
    {
        self.report
    }
}
