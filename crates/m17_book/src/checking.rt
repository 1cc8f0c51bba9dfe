ghost use Rattle.std.specs.Prelude.{◌≡◌, Ok, Err, MatchResult};
ghost use Rattle.m17_book.specs.Checks.{IsLegalBook, IsFirstBreachOf, report_of};
ghost use Rattle.m17_book.specs.declared.report.Breach.{Breach};

use crate::{Breach, Checker, Record, Report};

/// Whether the records of a book are legal under the limit on talking, in milliseconds, which is none where it is 0: what a
/// module of 256 places decides under it of just these joins, leaves and packets, at these moments. Then it counts them, the streams that were opened, and the packets that were admitted. Else it
/// names the first record that breaks a rule, and the first rule that it breaks: `Moment` where its moment is below that
/// of the record before it; `Member` where it is a Join at a place that is held, or a Leave of one that isn't in;
/// `Verdict` where it is a packet, and its verdict, value included, isn't that of the floor rule. It takes no memory, and
/// goes through the records once.
pub fn check(limit: u64, records: &[Record]) -> Result<Report, Breach>
    ensures answers { MatchResult result
        (λ report. IsLegalBook limit records.now × (report ≡ report_of records.now))
        (IsFirstBreachOf limit records.now) }
    ensures each_legal { IsLegalBook limit records.now → result ≡ Ok (report_of records.now) }
    ensures each_breach { (breach : Breach) → IsFirstBreachOf limit records.now breach
        → result ≡ Err breach }
{
    m17_floor::laws::books_are_judged_act_by_act();
    let mut checker = Checker::new(limit);
    for one in records {
        match checker.next(one) {
            Ok(()) => {}
            Err(breach) => return Err(breach),
        }
    }
    Ok(checker.report())
}
