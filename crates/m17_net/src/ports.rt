ghost use Rattle.std.specs.Prelude.{◌≡◌, ◌-◌, ◌^◌, ◌≤◌, min, true, false, [], ◌∷◌, IfSome, IfOk, OnOk, OnErr};
ghost use Rattle.m17_io.specs.Faults.{HasCause};
ghost use Rattle.m17_ports.specs.declared.question.Question.{Question};
ghost use Rattle.m17_ports.specs.Ear.{IsNewEar};
ghost use Rattle.m17_ports.specs.Mouth.{IsNewMouth};
ghost use Rattle.m17_ports.specs.Book.{IsNewBook};
ghost use Rattle.m17_ports.specs.Ports.{HasAsked, next_number};
ghost use Rattle.m17_disk.specs.Queue.{IsNewQueue, queue_told};
ghost use Rattle.m17_net.specs.Devices.{IsNewLink};

use crate::ear::WAIT_MS;
use crate::late_file::LateFile;
use crate::open_files::OpenFiles;
use crate::stop::Stop;
use crate::stopping::stop_at_end;
use crate::{FileBook, UdpEar, UdpMouth};
use m17_disk::{Hand, QueuedBook};
use m17_ports::Ports;
use m17_values::Failed;
use std::alloc::Global;
use std::fs::File;
use std::io;
use std::marker::Model;
use std::net::{Net, SocketAddr, UdpSocket};
use std::rt::Files;
use std::sync::{Arc, OnceLock, Wait};
use std::thread::Threads;
use std::time::{Clock, Duration, Instant};

/// Links on UDP sockets, and books in files, of the system that `rt` stands for. Each link and each book has the number
/// of the call that made it. The ears may rest where these ports were told so: whoever hears several of them in turn lets
/// them not, since one that waits long would keep the others waiting. A book's writes are made by a thread of its own,
/// which `staff` starts before the book is asked for, and `m17_disk::settle` ends.
#[derive(Drop)]
pub struct UdpPorts<R: Drop> {
    rt: R,
    start: Option<Instant>,
    rests: bool,
    stopping: Stopping,
    files: OpenFiles,
    calls: u64,
    faults: u64,
    spares: Vec<Spare<R>>,
}

// What stops the ears: nothing; this; or what could not be waited for, so that there are none.
#[derive(Drop)]
enum Stopping {
    Never,
    By(Stop),
    InVain,
}

// A book that was not asked for yet, and where its thread looks for the file.
#[derive(Drop)]
struct Spare<R: Drop> {
    book: QueuedBook<R>,
    file: Arc<OnceLock<File>, Global>,
    ghost new: { IsNewQueue 0 book },
}

impl<R: Drop> Model for UdpPorts<R> {
    ghost use Rattle.m17_net.specs.Devices.{PortsKept};
    ghost use Rattle.m17_net.specs.Stopping.{stops};

    ghost Value = { PortsKept };

    ghost view = { λ p. record {
      start = p.start;
      rests = p.rests;
      stops = stops p.stopping;
      locks = p.files;
      calls = p.calls;
      faults = p.faults;
    } };
}

impl<R: Net + Files<File = File> + Clock + AllocGlobal + Copy + Drop> UdpPorts<R> {
    ghost use Rattle.m17_net.specs.Devices.{PortsKept};

    /// Ports that were asked for nothing yet. The moments of their ears are counted from now, and these wait long where nobody
    /// is there if `rests` is true.
    pub fn new(rt: R, rests: bool) -> UdpPorts<R>
        ensures { result ≡ record {
          start = result.start;
          rests = rests;
          stops = false;
          locks = false;
          calls = 0;
          faults = 0;
        } }
    {
        UdpPorts {
            rt,
            start: Instant::now(&rt).ok(),
            rests,
            stopping: Stopping::Never,
            files: OpenFiles::new(rt.alloc(), None),
            calls: 0,
            faults: 0,
            spares: Vec::new(rt.alloc()),
        }
    }

    /// The same ports, which lock the file of this name before they open a file, make it where it is missing, and hold the lock
    /// for as long as they are there. Where another process holds it they make no book.
    pub fn locking(self, name: String) -> UdpPorts<R>
        ensures { result ≡ record self { locks = true } }
    {
        let mut ports = self;
        ports.files = OpenFiles::new(ports.rt.alloc(), Some(name));
        ports
    }

    // Counts a call, and answers its number.
    fn next_call(&mut self) -> u64
        ensures number { result ≡ self.old.calls }
        ensures counted { self.new ≡ record self.old { calls = next_number self.old.calls } }
    {
        let call = self.calls;
        self.calls = self.calls.saturating_add(1);
        call
    }

    // Counts a fault.
    fn fault(&mut self) -> Failed
        ensures counted { self.new ≡ record self.old { faults = next_number self.old.faults } }
    {
        self.faults = self.faults.saturating_add(1);
        Failed
    }

    // A link with this number, bound there.
    fn open(&self, bind: &str, until: Option<u64>, number: u64) -> Option<(UdpEar<R>, UdpMouth)>
        ensures { IfSome result (IsNewLink bind.now until self.now.start
            self.now.rests self.now.stops number) }
    {
        let start = self.start?;
        let stop = self.stop()?;
        let address = bind.parse::<SocketAddr>().ok()?;
        let (ear, mouth) = sockets(&self.rt, address).ok()?;
        let ear = UdpEar::new(self.rt, ear, start, until, self.rests, number);
        Some((
            ear.stopped_by(stop),
            UdpMouth::new(mouth, address.is_ipv6(), number),
        ))
    }

    // What stops one more ear.
    fn stop(&self) -> Option<Stop>
        ensures { IfSome result (λ s. s ≡ record { there = self.now.stops; seen = false }) }
    {
        match &self.stopping {
            Stopping::Never => Some(Stop::none()),
            Stopping::By(stop) => stop.share().ok(),
            Stopping::InVain => None,
        }
    }

    // A book with this number in a new file of this name, where a thread is left for it.
    fn open_book(&mut self, name: &str, number: u64) -> Option<QueuedBook<R>>
        ensures new { IfSome result (IsNewQueue number) }
        ensures same { self.new ≡ self.old }
    {
        let Spare { book, file } = self.spares.pop()?;
        let made = self.files.open_anew(&self.rt, name)?;
        match file.try_set(made) {
            Ok(_) => Some(book.numbered(number)),
            Err(_) => None,
        }
    }
}

impl<
    R: Net
        + Files<File = File>
        + Clock
        + AllocGlobal
        + Threads
        + Wait
        + Copy
        + Drop
        + Send
        + 'static,
> UdpPorts<R> {
    ghost use Rattle.m17_net.specs.Devices.{IsBegun, PortsKept};

    /// The same ports, whose ears the end of the file of this name stops. A thread waits for that, which is started here. Where
    /// there is no such file, or no thread or no memory for it, each link fails.
    pub fn stopping(self, host: HostRuntime, name: String) -> UdpPorts<R>
        ensures { result ≡ record self { stops = true } }
    {
        let mut ports = self;
        ports.stopping = match stop_at_end(&ports.rt, host, name) {
            Ok(stop) => Stopping::By(stop),
            Err(_) => Stopping::InVain,
        };
        ports
    }

    /// Starts the thread of a book that is still to be asked for, and hands it out, for `m17_disk::settle`. As many books can
    /// be asked for as threads were started. `Failed`, which is counted as a fault, where there is no thread or no memory for
    /// it.
    pub fn staff(&mut self) -> Result<Hand<FileBook<LateFile>>, Failed>
        ensures begun { IfOk result IsBegun }
        ensures same { OnOk result (self.new ≡ self.old) }
        ensures failed { OnErr result
            (self.new ≡ record self.old { faults = next_number self.old.faults }) }
    {
        match self.start_spare() {
            Ok(hand) => Ok(hand),
            Err(_) => Err(self.fault()),
        }
    }

    // The same, with nothing counted.
    fn start_spare(&mut self) -> Result<Hand<FileBook<LateFile>>, Failed>
        ensures begun { IfOk result IsBegun }
        ensures same { self.new ≡ self.old }
    {
        let alloc = self.rt.alloc();
        let Ok(late) = LateFile::make(alloc) else {
            return Err(Failed);
        };
        let Ok(file) = late.share() else {
            return Err(Failed);
        };
        let (book, hand) = m17_disk::open(self.rt, alloc, FileBook::new(late, 0), 0)?;
        match self.spares.push(Spare { book, file }) {
            Ok(()) => Ok(hand),
            Err(_) => Err(Failed),
        }
    }
}

/// The two halves of a socket that is bound there, for an ear and for a mouth: neither waits for longer than an ear does while
/// somebody may be there. It fails where a call of the system does.
pub fn sockets<R: Net>(rt: &R, address: SocketAddr) -> io::Result<(UdpSocket, UdpSocket)> {
    let wait = Some(Duration::from_millis(WAIT_MS));
    let socket = rt.bind_udp(address)?;
    socket.set_read_timeout(wait)?;
    socket.set_write_timeout(wait)?;
    let other = socket.try_clone()?;
    Ok((socket, other))
}

impl<
    R: Net
        + Files<File = File>
        + Clock
        + AllocGlobal
        + Threads
        + Wait
        + Copy
        + Drop
        + Send
        + 'static,
> Ports for UdpPorts<R> {
    ghost use Rattle.std.proofs.Math.Nat.{min-le_right};
    ghost use Rattle.m17_net.specs.Devices.{udp_ear_told, udp_mouth_told, udp_ports_told};

    type Ear = UdpEar<R>;

    type Mouth = UdpMouth;

    type Book = QueuedBook<R>;

    ghost told = { udp_ports_told };

    ghost faults_fit = { λ p. min-le_right p.faults (2 ^ 64 - 1) };

    fn link(&mut self, bind: &str, until: Option<u64>) -> Result<(UdpEar<R>, UdpMouth), Failed>
        ensures cause { HasCause (min self.old.faults (2 ^ 64 - 1))
            (min self.new.faults (2 ^ 64 - 1)) result }
        ensures asked { HasAsked (Question.Link bind.now until ∷ []) (udp_ports_told self.old)
            (udp_ports_told self.new) }
        ensures ear { IfOk result (λ link. IsNewEar self.old.calls (udp_ear_told link.0)) }
        ensures mouth { IfOk result (λ link. IsNewMouth self.old.calls (udp_mouth_told link.1)) }

        // The link is as it was asked for, its moments are counted from the start of the ports, its ear may wait long where
        // theirs may and is stopped where they are, and only the text of an address is taken.
        ensures made { IfOk result
            (IsNewLink bind.now until self.old.start self.old.rests self.old.stops self.old.calls) }
        ensures same_start { self.new.start ≡ self.old.start }
        ensures same_rests { self.new.rests ≡ self.old.rests }
        ensures same_stops { self.new.stops ≡ self.old.stops }
        ensures same_locks { self.new.locks ≡ self.old.locks }

        // The call is counted, and so is its failure.
        ensures no_fault { OnOk result (self.new.faults ≡ self.old.faults) }
        ensures failed { OnErr result (self.new.faults ≡ next_number self.old.faults) }
    {
        let number = self.next_call();
        match self.open(bind, until, number) {
            Some(link) => Ok(link),
            None => Err(self.fault()),
        }
    }

    fn book(&mut self, name: &str) -> Result<QueuedBook<R>, Failed>
        ensures cause { HasCause (min self.old.faults (2 ^ 64 - 1))
            (min self.new.faults (2 ^ 64 - 1)) result }
        ensures asked { HasAsked (Question.Book name.now ∷ []) (udp_ports_told self.old)
            (udp_ports_told self.new) }
        ensures book { IfOk result (λ book. IsNewBook self.old.calls (queue_told book)) }
        ensures same_start { self.new.start ≡ self.old.start }
        ensures same_rests { self.new.rests ≡ self.old.rests }
        ensures same_stops { self.new.stops ≡ self.old.stops }
        ensures same_locks { self.new.locks ≡ self.old.locks }

        // The call is counted, and so is its failure.
        ensures no_fault { OnOk result (self.new.faults ≡ self.old.faults) }
        ensures failed { OnErr result (self.new.faults ≡ next_number self.old.faults) }
    {
        let number = self.next_call();
        let Some(book) = self.open_book(name, number) else {
            return Err(self.fault());
        };
        Ok(book)
    }
}
