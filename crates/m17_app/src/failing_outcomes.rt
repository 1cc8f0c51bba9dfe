//! What comes of an evening of `serve` in which a device fails: the status and its text, what is said, and how long the
//! files are.

/// What may fail: the devices of the one link, its trace, the book of the one module, and what the program is given.
#[derive(Clone, Copy, PartialEq, Eq)]
pub(crate) enum Device {
    Ear,
    Mouth,
    Trace,
    Book,
    Ports,
    Crew,
    Sink,
}

/// What devices come back.
#[derive(Clone, Copy, PartialEq, Eq)]
pub(crate) enum Back {
    Nothing,
    OfARun,
    Untouched,
}

/// What comes of an evening: the status, the text, what comes back, how many datagrams were said, and how many bytes
/// the trace and the book have.
#[derive(Clone, Copy)]
pub(crate) struct Outcome {
    pub(crate) status: u8,
    pub(crate) text: &'static str,
    pub(crate) back: Back,
    pub(crate) said: usize,
    pub(crate) trace: usize,
    pub(crate) book: usize,
}

pub(crate) const LINE: &str = "A admitted 4 missed 0\n";

/// Nothing fails.
pub(crate) const SOUND: Outcome = Outcome {
    status: 0,
    text: LINE,
    back: Back::OfARun,
    said: 6,
    trace: 375,
    book: 541,
};

pub(crate) const LOST: Outcome = Outcome {
    status: 7,
    text: "A admitted 0 missed 0\nlink lost\n",
    back: Back::OfARun,
    said: 0,
    trace: 24,
    book: 17,
};

pub(crate) const LOST_LATE: Outcome = Outcome {
    status: 7,
    text: "A admitted 4 missed 0\nlink lost\n",
    trace: 391,
    ..SOUND
};

pub(crate) const BOOK_FAILED: Outcome = Outcome {
    status: 8,
    text: "A admitted 4 missed 0\nbook failed\n",
    ..SOUND
};

pub(crate) const UNTOUCHED: Outcome = Outcome {
    status: 6,
    text: "crew refused\n",
    back: Back::Untouched,
    said: 0,
    trace: 0,
    book: 0,
};

pub(crate) const PORT_FAILED: Outcome = Outcome {
    status: 5,
    text: "port failed\n",
    back: Back::Nothing,
    ..UNTOUCHED
};

/// How many bytes the trace has before each of its entries is written, the first with the header, and the book before
/// its header and each of its records.
pub(crate) const TRACE_BEFORE: [usize; 7] = [0, 36, 107, 135, 206, 277, 304];

pub(crate) const BOOK_BEFORE: [usize; 9] = [0, 17, 54, 151, 188, 285, 382, 413, 510];

/// How often each device is called.
pub(crate) const CALLS: [(&str, Device, usize); 7] = [
    ("ear", Device::Ear, 8),
    ("mouth", Device::Mouth, 6),
    ("trace", Device::Trace, 7),
    ("book", Device::Book, 9),
    ("ports", Device::Ports, 3),
    ("crew", Device::Crew, 3),
    ("sink", Device::Sink, 3),
];

/// The item at this place; 0 where there is none.
pub(crate) fn at<const N: usize>(items: &[usize; N], place: usize) -> usize {
    items.get(place).copied().unwrap_or(0)
}

/// What comes of an evening where so many calls of a device fail, from this one on: each fault of the ear stands in the
/// trace, each call of the mouth that fails loses one datagram, and a file has what was written before.
pub(crate) fn wanted_of(device: Device, from: usize, count: usize) -> Outcome {
    match device {
        Device::Ear => Outcome {
            trace: 375usize.saturating_add(count),
            ..SOUND
        },
        Device::Mouth => Outcome {
            said: from.max(6usize.saturating_sub(count)),
            ..SOUND
        },
        Device::Trace => Outcome {
            trace: at(&TRACE_BEFORE, from),
            ..BOOK_FAILED
        },
        Device::Book => Outcome {
            book: at(&BOOK_BEFORE, from),
            ..BOOK_FAILED
        },
        Device::Ports => PORT_FAILED,
        Device::Crew => UNTOUCHED,
        Device::Sink => Outcome {
            status: 4,
            text: if from == 0 { "" } else { LINE },
            ..SOUND
        },
    }
}
