ghost use Rattle.std.specs.Prelude.{◌≡◌, ◌≢◌, ◌≤◌, ℕ, [], ◌∷◌, true};
ghost use Rattle.m17_io.specs.Faults.{HasRisen};
ghost use Rattle.m17_ports.specs.Told.{told_then, StartsEmpty};
ghost use Rattle.m17_ports.specs.Ear.{EndsPastCount, IsNewEar};
ghost use Rattle.m17_decorators.specs.Filled.{filled_entry};
ghost use Rattle.m17_decorators.specs.Filling.{fill_told};

use crate::filled::filled;
use m17_ports::Ear;
use m17_values::Heard;
use std::marker::Model;

/// The label of an ear that may fill in CRCs. It is for contracts alone.
pub struct FillLabel<L> {
    /// Whether it does.
    pub fills: bool,
    /// The label of the ear behind it.
    pub inner: L,
}

/// An ear over another one, which fills in the CRC of a datagram that lacks nothing else to be a
/// stream packet, or one that fills in nothing. It tells what the ear does, with such datagrams
/// filled in.
#[derive(Drop)]
pub struct Filling<E> {
    inner: E,
    fills: bool,
}

impl<E> Model for Filling<E> {
    ghost use Rattle.m17_decorators.specs.Filling.{FillingSeen};

    ghost Value = { FillingSeen E };

    ghost view = { λ ear. record { inner = ear.inner; fills = ear.fills } };
}

impl<E: Ear + Drop> Filling<E> {
    ghost use Rattle.m17_decorators.specs.Filling.{FillingSeen};

    /// The ear, which fills in CRCs if `fills` is true.
    pub fn with(inner: E, fills: bool) -> Filling<E>
        ensures filling { result ≡ record { inner = inner; fills = fills } }
        // Of an ear of which nothing was heard nothing is heard still, and a new ear is a new one.
        ensures unheard { StartsEmpty (E.told inner).heard
            → StartsEmpty (fill_told E.told result).heard }
        ensures new { (call : ℕ) → IsNewEar call (E.told inner)
            → IsNewEar call (fill_told E.told result) }
    {
        Filling { inner, fills }
    }

    /// The ear.
    pub fn into_inner(self) -> E
        ensures { result ≡ self.inner }
    {
        self.inner
    }

    // What the ear makes of an entry.
    fn pass(&mut self, heard: Heard) -> Heard
        ensures filled { result ≡ filled_entry self.old.fills heard }
        ensures same { self.new ≡ self.old }
    {
        if self.fills {
            filled_entry(heard)
        } else {
            heard
        }
    }
}

/// The entry, with its CRC where it is a datagram that lacks one.
fn filled_entry(heard: Heard) -> Heard
    ensures { result ≡ filled_entry true heard }
{
    match heard {
        Heard::Datagram { from, at, bytes } => Heard::Datagram {
            from,
            at,
            bytes: filled(bytes),
        },
        other => other,
    }
}

impl<E: Ear + Drop> Ear for Filling<E> {
    ghost use Rattle.m17_decorators.specs.Filling.{fill-follows};

    type Label = FillLabel<E::Label>;

    ghost told = { λ ear. fill_told E.told ear };

    ghost faults_fit = { λ ear. E.faults_fit ear.inner };

    ghost follows_script = { λ ear. fill-follows ear.fills (E.told ear.inner).device.mark
        (E.told ear.inner).heard (E.follows_script ear.inner) };

    fn hear(&mut self) -> Heard {
        let heard = self.inner.hear();
        self.pass(heard)
    }
}
