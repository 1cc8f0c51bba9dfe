ghost use Rattle.std.specs.Prelude.{◌≡◌, ◌+◌, ◌<◌, ◌≤◌, [], ◌∷◌, ◌++◌, length, if◌then◌else◌};
ghost use Rattle.m17_directory.specs.Outcome.{to_module, to_each_module, to_door};
ghost use Rattle.m17_directory.specs.Steps.{asked_as};

use crate::{Asked, Dispatch, Post, Request};
use m17_callsign::CallAddress;
use m17_control::{Body, Control, Direct, Event, ModuleLetter, Modules, Tag};
use m17_values::Peer;
use std::marker::Model;

// What the entry that is heard gives to all that it posts: its link, its index and its moment; with the reflector's
// address and the modules that are served.
#[derive(Debug, Drop)]
pub(crate) struct Stamp {
    pub(crate) link: u8,
    pub(crate) name: CallAddress,
    pub(crate) places: u32,
    pub(crate) modules: Modules,
    pub(crate) index: u64,
    pub(crate) moment: u64,
}

impl Model for Stamp {
    ghost use Rattle.m17_directory.specs.Outcome.{Here};

    ghost Value = { Here };

    ghost view = { λ s. record {
      setup = record { link = s.link; name = s.name; places = s.places; modules = s.modules };
      index = s.index;
      moment = s.moment;
    } };
}

impl Stamp {
    // The link's moment at the entry.
    pub(crate) fn moment(&self) -> u64
        ensures { result ≡ self.now.moment }
    {
        self.moment
    }

    // The reflector's address.
    pub(crate) fn name(&self) -> CallAddress
        ensures { result ≡ self.now.setup.name }
    {
        self.name
    }

    ghost use Rattle.m17_control.specs.Modules.{serves};

    // Whether the module is served.
    pub(crate) fn serves(&self, letter: ModuleLetter) -> bool
        ensures { result ≡ serves self.now.setup.modules letter }
    {
        self.modules.has(letter.byte())
    }

    // The request stands asked.
    pub(crate) fn asked(&self, peer: &Peer, request: &Request) -> Asked
        ensures { result ≡ asked_as self.now peer.now request.now }
    {
        Asked {
            index: self.index,
            peer: *peer,
            request: *request,
        }
    }

    // Posts an event of a module.
    pub(crate) fn tell(&self, letter: ModuleLetter, body: &Body, post: &mut Post)
        requires { length post.old < 300 }
        ensures { post.new ≡ post.old ++ to_module self.now letter body.now ∷ [] }
    {
        let event = Event {
            tag: Tag {
                link: self.link,
                index: self.index,
            },
            at: self.moment,
            body: *body,
        };
        post.put(&Dispatch::ToModule {
            module: letter,
            event,
        });
    }

    // Posts an event of a module, if it is served.
    fn tell_if_served(&self, letter: ModuleLetter, body: &Body, post: &mut Post)
        requires { length post.old < 300 }
        ensures { post.new ≡ post.old ++ (if serves self.now.setup.modules letter
            then to_module self.now letter body.now ∷ [] else []) }
    {
        if self.serves(letter) {
            self.tell(letter, body, post);
        }
    }

    // Posts the same to each served module, in order of letters.
    pub(crate) fn tell_each(&self, body: &Body, post: &mut Post)
        requires { length post.old ≤ 274 }
        ensures told { post.new ≡ post.old ++ to_each_module self.now body.now }
        ensures few { length post.new ≤ length post.old + 26 }
    {
        for byte in b'A'..b'Z' + 1 {
            let letter = ModuleLetter::new(byte).unwrap();
            self.tell_if_served(letter, body, post);
        }
    }

    // Posts a reply to a peer, past all modules.
    pub(crate) fn answer(&self, peer: &Peer, control: &Control, post: &mut Post)
        requires { length post.old < 300 }
        ensures { post.new ≡ post.old ++ to_door self.now peer.now control.now ∷ [] }
    {
        post.put(&Dispatch::ToDoor(Direct {
            link: self.link,
            peer: *peer,
            control: *control,
        }));
    }
}
