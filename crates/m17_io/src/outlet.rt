ghost use Rattle.std.specs.Prelude.{◌≡◌, ◌-◌, ◌^◌, ◌<◌, ◌≤◌, length, take, IfOk, OnErr};
ghost use Rattle.m17_io.specs.Faults.{HasCause};
ghost use Rattle.m17_io.specs.Outlet.{OutletTold, followed_by};

use m17_values::Failed;

/// Where bytes leave the program, as an operating system takes them: some of them at a time, and it says how many. A
/// buffer stands over it, since it can then keep exactly the bytes that have not left.
pub trait Outlet {
    /// What it tells.
    ghost told: { Self → OutletTold };

    /// Sends some of the bytes, from the front, and answers how many: none only where there are none. `Failed` where
    /// the device failed, and then nothing was sent.
    fn send(&mut self, bytes: &[u8]) -> Result<usize, Failed>
        ensures cause { HasCause (told self.old).faults (told self.new).faults result }
        ensures within { IfOk result (λ n. n ≤ length bytes.now) }
        ensures some { IfOk result (λ n. 0 < length bytes.now → 0 < n) }
        ensures ok { IfOk result (λ n. (told self.new).sent
            ≡ followed_by (told self.old).sent (take n bytes.now)) }
        ensures err { OnErr result ((told self.new).sent ≡ (told self.old).sent) };

    /// A count of faults is a number of 64 bits: one that stands at the greatest stays there.
    ghost faults_fit: { (outlet : Self) → (told outlet).faults ≤ 2 ^ 64 - 1 };
}
