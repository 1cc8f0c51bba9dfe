ghost use Rattle.std.specs.Prelude.{◌≡◌, ◌<◌, ◌↔◌, List, [], ◌∷◌, ◌++◌, length, IfOk, IfSome, IsTrue, IsNone};
ghost use Rattle.m17_directory.specs.declared.dispatch.Dispatch.{Dispatch};
ghost use Rattle.std.specs.Option.{option_to_list};

use crate::Dispatch;
use m17_callsign::CallAddress;
use m17_control::{Body, Control, Direct, Event, ModuleLetter};
use m17_values::NoMemory;
use std::alloc::Global;
use std::collections::VecDeque;
use std::marker::Model;

/// How much a post has room for: an entry posts less.
pub const POST_ROOM: usize = 300;

/// What an entry posted and nobody took yet, the oldest first. Contracts see the list.
#[derive(Debug, Drop)]
pub struct Post {
    items: VecDeque<Dispatch>,
}

impl Model for Post {
    ghost use Rattle.std.specs.Prelude.{List, ◌≤◌};
    ghost use Rattle.std.specs.VecDeque.{deque_capacity};
    ghost use Rattle.m17_directory.specs.declared.dispatch.Dispatch.{Dispatch};

    ghost Value = { List Dispatch };

    ghost view = { λ p. p.items.items };

    ghost invariant = { λ p. 300 ≤ deque_capacity p.items };
}

impl Post {
    /// An empty post, with room for 300. It fails only where there is no memory.
    pub fn make(alloc: Global) -> Result<Post, NoMemory>
        ensures { IfOk result (λ post. post ≡ []) }
    {
        let items = VecDeque::with_capacity(alloc, POST_ROOM)?;
        Ok(Post { items })
    }

    /// Whether nothing is left in it.
    pub fn is_empty(&self) -> bool
        ensures { IsTrue result ↔ (self.now ≡ []) }
    {
        self.items.is_empty()
    }

    /// The first, where it stands; none exactly where the post is empty.
    pub fn first(&self) -> Option<&Dispatch>
        ensures first { IfSome result (λ item. (rest : List Dispatch) × (self.now ≡ item.now ∷ rest)) }
        ensures none { IsNone result ↔ (self.now ≡ []) }
    {
        self.items.front()
    }

    /// Takes the first out; none exactly where the post is empty.
    pub fn take(&mut self) -> Option<Dispatch>
        ensures first { self.old ≡ option_to_list result ++ self.new }
        ensures none { IsNone result ↔ (self.old ≡ []) }
    {
        self.items.pop_front()
    }

    // Puts one behind the others.
    pub(crate) fn put(&mut self, item: &Dispatch)
        requires { length self.old < 300 }
        ensures { self.new ≡ self.old ++ item.now ∷ [] }
    {
        // The types inside it: the check finds their modules only where a function names them.
        let _parts: (Option<CallAddress>, Option<ModuleLetter>, Option<Control>) = (
            None, None, None,
        );
        let _wholes: (Option<Body>, Option<Event>, Option<Direct>) = (None, None, None);
        self.items.push_back_reserved(*item);
    }
}
