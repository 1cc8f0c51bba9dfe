ghost use Rattle.std.specs.Prelude.{◌≡◌, ◌-◌, ◌^◌, ◌≤◌, None, Some, false};
ghost use Rattle.std.specs.Option.{option_map};
ghost use Rattle.m17_ports.specs.Book.{shelf_told};

use crate::Book;
use m17_values::Failed;

/// A book that may be missing: without an inner book it keeps nothing, says so, and never fails. Its label says whether
/// it has one.
#[derive(Debug, Drop)]
pub struct Shelf<B> {
    /// The book that is written, if there is one.
    pub inner: Option<B>,
}

impl<B: Book> Book for Shelf<B> {
    ghost use Rattle.std.proofs.Common.{lit≤};

    type Label = Option<B::Label>;

    ghost told = { λ s. shelf_told (option_map B.told s.inner) };

    ghost faults_fit = { λ s. elim s.inner
        as (λ inner. (shelf_told (option_map B.told inner)).faults ≤ 2 ^ 64 - 1)
        [ None ↦ lit≤ tt | Some book ↦ B.faults_fit book ] };

    // It keeps what its inner book keeps, and nothing without one.
    fn is_kept(&self) -> bool
        ensures untold { result ≡ false
            → ((shelf_told (option_map B.told self.now.inner)).written ≡ None)
            × ((shelf_told (option_map B.told self.now.inner)).device.mark ≡ None) }
        ensures empty { self.now.inner ≡ None → result ≡ false }
    {
        match &self.inner {
            Some(book) => book.is_kept(),
            None => false,
        }
    }

    fn write(&mut self, bytes: &[u8]) -> Result<(), Failed> {
        match &mut self.inner {
            Some(book) => book.write(bytes),
            None => Ok(()),
        }
    }
}
