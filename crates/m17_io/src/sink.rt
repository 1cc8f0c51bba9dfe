ghost use Rattle.std.specs.Prelude.{◌≡◌, ℕ, ◌-◌, ◌^◌, ◌≤◌, List, ◌++◌, Some, OnOk, OnErr};
ghost use Rattle.m17_io.specs.Faults.{HasCause};
ghost use Rattle.m17_io.specs.Sink.{AppendsPrefix, SinkTold};

use m17_values::Failed;

/// Where bytes go.
pub trait Sink {
    /// What it tells.
    ghost told: { Self → SinkTold };

    /// Appends all of the bytes. `Failed` where the device failed, and then some prefix of them was appended.
    fn write(&mut self, bytes: &[u8]) -> Result<(), Failed>
        ensures cause { HasCause (told self.old).faults (told self.new).faults result }
        ensures ok { OnOk result ((before : List ℕ) → (told self.old).written ≡ Some before
            → (told self.new).written ≡ Some (before ++ bytes.now)) }
        ensures err { OnErr result ((before : List ℕ) → (told self.old).written ≡ Some before
            → AppendsPrefix before bytes.now (told self.new).written) };

    /// Hands on what it holds back of the bytes written. `Failed` where the device failed.
    fn flush(&mut self) -> Result<(), Failed>
        ensures cause { HasCause (told self.old).faults (told self.new).faults result }
        ensures same { (told self.new).written ≡ (told self.old).written }
        ensures handed_on { OnOk result ((told self.new).held_back ≡ 0) };

    /// A count of faults is a number of 64 bits: one that stands at the greatest stays there.
    ghost faults_fit: { (sink : Self) → (told sink).faults ≤ 2 ^ 64 - 1 };
}
