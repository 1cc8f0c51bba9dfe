//! Where the link ends, by what was heard.
ghost use Rattle.std.specs.Prelude.{◌≡◌, ◌+◌, ◌<◌, ◌≤◌, ◌++◌, List, length, if◌then◌else◌};
ghost use Rattle.m17_values.specs.declared.heard.Heard.{Heard};
ghost use Rattle.m17_book.specs.Answers.{HasEnd};
ghost use Rattle.m17_directory.specs.Entries.{Entry, SaysEach};
ghost use Rattle.m17_directory.specs.Laws.{EndsOnce};
ghost use Rattle.m17_replay.specs.Run.{is_end_heard, is_fault_heard};

use m17_directory::MOST_FAULTS;
use m17_values::Heard;

// How many entries the link hears of these: up to the first that ends it.
pub(crate) fn count_to_end(heard: &[Heard]) -> usize
    requires { HasEnd heard.now }
    ensures some { 0 < result }
    ensures few { result ≤ length heard.now }
    ensures ends { (entries : List Entry) (front rest : List Heard) → heard.now ≡ front ++ rest →
        SaysEach front entries → EndsOnce entries → result ≡ length entries }
{
    let mut faults: u32 = 0;
    for (n, one) in heard.iter().enumerate() {
        faults = faults_with(faults, one);
        if is_end(one) || faults == MOST_FAULTS {
            return n + 1;
        }
    }
    heard.len()
}

// How many faults came last in a row, with one entry more.
fn faults_with(faults: u32, one: &Heard) -> u32
    requires { faults < 16 }
    ensures { result ≡ (if is_fault_heard one.now then faults + 1 else 0) }
{
    if is_fault(one) { faults + 1 } else { 0 }
}

// The socket failed.
pub(crate) fn is_fault(heard: &Heard) -> bool
    ensures { result ≡ is_fault_heard heard.now }
{
    match heard {
        Heard::Fault => true,
        _ => false,
    }
}

// Nothing more comes.
fn is_end(heard: &Heard) -> bool
    ensures { result ≡ is_end_heard heard.now }
{
    match heard {
        Heard::End => true,
        _ => false,
    }
}
