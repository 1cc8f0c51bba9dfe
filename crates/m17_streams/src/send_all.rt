ghost use Rattle.std.specs.Prelude.{◌≡◌, ◌<◌, ◌≤◌, length, take};
ghost use Rattle.m17_io.specs.Faults.{HasRisen};
ghost use Rattle.m17_io.specs.Outlet.{followed_by};

use m17_io::Outlet;

// Sends the bytes, and answers how many of them, from the front, have left: fewer than all only where the outlet
// failed.
pub(crate) fn send_all<O: Outlet>(out: &mut O, bytes: &[u8]) -> usize
    ensures within { result ≤ length bytes.now }
    ensures sent { (O.told out.new).sent ≡ followed_by (O.told out.old).sent (take result bytes.now) }
    ensures counted { (O.told out.old).faults ≤ (O.told out.new).faults }
    ensures failed { result < length bytes.now → HasRisen (O.told out.old).faults (O.told out.new).faults }
    ensures no_fault { result ≡ length bytes.now → (O.told out.new).faults ≡ (O.told out.old).faults }
{
    let mut done = 0;
    while done < bytes.len() {
        match out.send(&bytes[done..]) {
            Ok(n) => done += n,
            Err(_) => return done,
        }
    }
    done
}
