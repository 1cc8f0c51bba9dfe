ghost use Rattle.std.specs.Prelude.{◌≡◌, ◌≢◌, ◌-◌, ◌^◌, ◌≤◌, List, [], ◌∷◌, Some};
ghost use Rattle.m17_io.specs.Faults.{HasRisen};
ghost use Rattle.m17_values.specs.declared.heard.Heard.{Heard};
ghost use Rattle.m17_ports.specs.Told.{told_then};
ghost use Rattle.m17_ports.specs.Marks.{script_of};
ghost use Rattle.m17_ports.specs.Ear.{EarTold, EndsPastCount, FollowsScript};

use m17_values::Heard;

/// The receiving half of a socket.
pub trait Ear {
    /// What is said at this form of an ear, with the label of the device below it where there is one.
    type Label;

    /// What it tells: what was heard so far, how often it has failed, and which ear it is.
    ghost told: { Self → EarTold Self.Label };

    /// What comes next: a datagram with the peer that sent it and its moment in milliseconds, or that none came until
    /// a moment, or that the socket failed, or that nothing more will come. It may wait.
    fn hear(&mut self) -> Heard
        ensures counted { (told self.old).faults ≤ (told self.new).faults }
        ensures fault { result ≡ Heard.Fault
            → HasRisen (told self.old).faults (told self.new).faults }
        ensures no_fault { result ≢ Heard.Fault → (told self.new).faults ≡ (told self.old).faults }
        ensures appended { (EndsPastCount (told self.old).heard → ⊥)
            → (told self.new).heard ≡ told_then (told self.old).heard (result ∷ []) }
        ensures same_device { (told self.new).device ≡ (told self.old).device };

    /// A count of faults is a number of 64 bits: one that stands at the greatest stays there.
    ghost faults_fit: { (ear : Self) → (told ear).faults ≤ 2 ^ 64 - 1 };

    /// An ear with a script has heard what its script says.
    ghost follows_script: { (ear : Self) (script entries : List Heard)
        → script_of (told ear).device.mark ≡ Some script → (told ear).heard ≡ Some entries
        → FollowsScript script entries };
}
