//! What no clause says: how inputs are taken that come in pieces or fail, and the words of each
//! reason.
use crate::bench::must;
use m17_gate::{RulesFailure, RulesReason, take_rules};
use m17_io::Fault;
use m17_print::{Ending, Line};
use m17_streams::{BytesSink, BytesSource};
use std::alloc::Global;
use std::process::Abort;

// Why there are no rules in this input, whose source fails at these calls; none where there are
// some.
fn failure<R: Abort>(rt: &R, alloc: Global, text: Vec<u8>, fails: &[u64]) -> Option<RulesFailure> {
    let mut source = BytesSource::new(text, must(rt, fails.to_vec(alloc)));
    let mut sink = must(rt, BytesSink::make(alloc, 0, Vec::new(alloc)));
    take_rules(alloc, &mut source, &mut sink).err()
}

fn refused(place: u64, reason: RulesReason) -> Option<RulesFailure> {
    Some(RulesFailure::Refused { place, reason })
}

#[test]
fn a_text_is_taken_or_refused_at_its_first_bad_line(rt: HostRuntime) {
    let alloc = rt.alloc();
    let rows = [
        ("", None),
        ("deny any * N0*\r\n\n; no more\n", None),
        ("deny talk A N0CALL", refused(0, RulesReason::Modules)),
        ("allow", refused(0, RulesReason::Kind)),
        ("deny conn A ", refused(0, RulesReason::Pattern)),
        (
            "allow any * *\n\nreject any * *\nallow",
            refused(2, RulesReason::Act),
        ),
    ];
    for (text, wanted) in rows {
        let text = must(&rt, text.as_bytes().to_vec(alloc));
        let found = failure(&rt, alloc, text, &[]);
        assert!(rt; found == wanted);
    }
}

#[test]
fn a_text_may_have_65_536_bytes(rt: HostRuntime) {
    let alloc = rt.alloc();
    let most = must(&rt, vec![in alloc; b'\n'; 65_536]);
    let more = must(&rt, vec![in alloc; b'\n'; 65_537]);
    let much = must(&rt, vec![in alloc; b'x'; 100_000]);
    assert!(rt; failure(&rt, alloc, most, &[]).is_none());
    let large = refused(65_536, RulesReason::Large);
    assert!(rt; failure(&rt, alloc, more, &[]) == large);
    assert!(rt; failure(&rt, alloc, much, &[]) == large);
}

#[test]
fn a_source_that_fails_is_told(rt: HostRuntime) {
    let alloc = rt.alloc();
    let text = must(&rt, b"allow any * *".to_vec(alloc));
    let again = must(&rt, text.to_vec(alloc));
    let failed = Some(RulesFailure::Device(Fault::Read));
    assert!(rt; failure(&rt, alloc, text, &[0]) == failed);
    assert!(rt; failure(&rt, alloc, again, &[1]) == failed);
}

#[test]
fn each_reason_has_its_words(rt: HostRuntime) {
    let rows = [
        (RulesReason::Large, "input refused at 7: large\n"),
        (RulesReason::Act, "input refused at 7: act\n"),
        (RulesReason::Kind, "input refused at 7: kind\n"),
        (RulesReason::Modules, "input refused at 7: modules\n"),
        (RulesReason::Pattern, "input refused at 7: pattern\n"),
    ];
    for (reason, wanted) in rows {
        let mut line = Line::new();
        line.make_last(&Ending::Refused { place: 7, reason });
        assert!(rt; line.bytes() == wanted.as_bytes());
    }
}
