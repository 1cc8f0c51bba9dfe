ghost use Rattle.std.specs.Prelude.{◌≡◌, ◌≤◌, ◌<◌, [], length, IfSome, IfNone};

use arrayvec::ArrayVec;
use std::marker::Model;

/// How many bytes one write may have. A header, a record or an entry has 101 at the most.
pub(crate) const SLIP_BYTES: usize = 112;

/// The bytes of one write, on their way to the thread that makes it; or none, which is the mark behind the last write.
/// Contracts see the list of bytes.
#[derive(Drop)]
pub struct Slip(ArrayVec<u8, SLIP_BYTES>);

impl Model for Slip {
    ghost use Rattle.std.specs.Prelude.{ℕ, List};

    ghost Value = { List ℕ };

    ghost view = { λ s. s.0.items };
}

impl Slip {
    // The slip of these bytes, where they are not too many.
    pub(crate) fn of(bytes: &[u8]) -> Option<Slip>
        ensures slip { IfSome result (λ slip. slip ≡ bytes.now) }
        ensures too_many { IfNone result (112 < length bytes.now) }
    {
        let mut slip = ArrayVec::new();
        match slip.try_extend_from_slice(bytes) {
            Ok(()) => Some(Slip(slip)),
            Err(_) => None,
        }
    }

    // The mark behind the last write.
    pub(crate) fn mark() -> Slip
        ensures { result ≡ [] }
    {
        Slip(ArrayVec::new())
    }

    // Its bytes.
    pub(crate) fn bytes(&self) -> &[u8]
        ensures same { result.now ≡ self.now }
        ensures short { length result.now ≤ 112 }
    {
        self.0.as_slice()
    }
}
