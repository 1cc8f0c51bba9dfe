ghost use Rattle.std.specs.Prelude.{◌≡◌, ◌↔◌, Some};
ghost use Rattle.m17_book.specs.Records.{SpellsRecord};
ghost use Rattle.m17_book.specs.declared.record.Record.{Record};
ghost use Rattle.m17_book.specs.declared.version.Version.TheVariants.{Two};

use crate::Record;
use crate::laws::records_are_clear;
use crate::parse_record::parse_record;
use crate::version::Version;

/// The record that the bytes spell, all of them; none where they spell none, as where more bytes stand behind it.
pub fn read_record(b: &[u8]) -> Option<Record>
    ensures spelled { (one : Record) → (result ≡ Some one) ↔ SpellsRecord Two one b.now }
{
    records_are_clear();
    if b.is_empty() {
        return None;
    }
    match parse_record(Version::Two, b) {
        Ok((record, size)) => { if size == b.len() { Some(record) } else { None } }
        Err(_) => None,
    }
}
