use m17_print::{Line, Reason};

/// Why `migrate` refuses its input: it is no book of version 1.
#[derive(Clone, Copy, Debug, PartialEq, Eq)]
pub enum MigrateReason {
    /// The input ends inside the header, a record or a field.
    Cut,
    /// An unknown kind of record, with its byte.
    Kind(u8),
    /// A field has a value that is not allowed.
    Field,
    /// The input has too many bytes.
    Large,
}

impl Reason for MigrateReason {
    ghost use Rattle.m17_text_commands.specs.MigrateReasons.{migrate_reason_words};

    ghost words = { migrate_reason_words };

    fn push_to(&self, line: &mut Line) {
        match self {
            MigrateReason::Cut => line.push_text("cut"),
            MigrateReason::Kind(byte) => {
                line.push_text("kind ");
                line.push_hex(&[*byte]);
            }
            MigrateReason::Field => line.push_text("field"),
            MigrateReason::Large => line.push_text("large"),
        }
    }
}
