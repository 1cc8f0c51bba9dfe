ghost use Rattle.std.specs.Prelude.{◌≡◌, ◌-◌, ◌^◌, ◌≤◌, ℕ, take, None, false, OnOk, OnErr};
ghost use Rattle.m17_io.specs.Faults.{HasCause};
ghost use Rattle.m17_ports.specs.Told.{told_then};
ghost use Rattle.m17_ports.specs.Book.{BookTold};

use m17_values::Failed;

/// Where a log is written: the trace of a link, or the records of a module or a client.
pub trait Book {
    /// What is said at this form of a book, with the label of the device below it where there is one.
    type Label;

    /// What it tells: the bytes written so far, how often it has failed, and which book it is.
    ghost told: { Self → BookTold Self.Label };

    /// Whether what is written to it is kept, which a writer may ask before it spells anything. A book that answers no
    /// tells no bytes and no number: it keeps nothing, and what is written to it is told to nobody.
    fn is_kept(&self) -> bool
        ensures untold { result ≡ false
            → ((told self.now).written ≡ None) × ((told self.now).device.mark ≡ None) }
    {
        true
    }

    /// Appends all of the bytes. `Failed` where the device failed, and then some prefix of them was appended.
    fn write(&mut self, bytes: &[u8]) -> Result<(), Failed>
        ensures cause { HasCause (told self.old).faults (told self.new).faults result }
        ensures appended { OnOk result
            ((told self.new).written ≡ told_then (told self.old).written bytes.now) }
        ensures prefix { OnErr result ((n : ℕ)
            × ((told self.new).written ≡ told_then (told self.old).written (take n bytes.now))) }
        ensures same_device { (told self.new).device ≡ (told self.old).device };

    /// A count of faults is a number of 64 bits: one that stands at the greatest stays there.
    ghost faults_fit: { (book : Self) → (told book).faults ≤ 2 ^ 64 - 1 };
}
