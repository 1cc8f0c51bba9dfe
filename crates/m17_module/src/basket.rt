ghost use Rattle.std.specs.Prelude.{◌≡◌, ◌<◌, ◌↔◌, [], ◌∷◌, ◌++◌, length, slice_index_or, IsTrue, IsNone, IfOk};
ghost use Rattle.std.specs.Option.{option_to_list};

use m17_callsign::CallAddress;
use m17_control::{Control, Item, Said};
use m17_values::NoMemory;
use std::alloc::Global;
use std::marker::Model;

/// For how many items a basket has room: one event of a module gives fewer.
pub const BASKET_ROOM: usize = 520;

// Items in a row, which never grows past its room.
#[derive(Debug, Drop)]
pub(crate) struct Tray {
    items: Vec<Item>,
}

impl Model for Tray {
    ghost use Rattle.std.specs.Prelude.{List, ◌≤◌, vec_capacity};
    ghost use Rattle.m17_control.specs.declared.item.Item.{Item};

    ghost Value = { List Item };

    ghost view = { λ t. t.items.items };

    ghost invariant = { λ t. 520 ≤ vec_capacity t.items };
}

impl Tray {
    fn make(alloc: Global) -> Result<Tray, NoMemory>
        ensures { IfOk result (λ t. t ≡ []) }
    {
        let items = Vec::with_capacity(alloc, BASKET_ROOM)?;
        Ok(Tray { items })
    }

    #[inline]
    fn len(&self) -> usize
        ensures { result ≡ length self.now }
    {
        self.items.len()
    }

    #[inline]
    fn at(&self, i: usize) -> Item
        requires { i < length self.now }
        ensures { result ≡ slice_index_or self.now i result }
    {
        self.items[i]
    }

    pub(crate) fn clear(&mut self)
        ensures { self.new ≡ [] }
    {
        self.items.clear();
    }

    // Puts an item behind the others.
    #[inline]
    pub(crate) fn put(&mut self, item: &Item)
        requires { length self.old < 520 }
        ensures { self.new ≡ self.old ++ item.now ∷ [] }
    {
        // The types inside an item: the check finds their modules only where a function names them.
        let _parts: (Option<CallAddress>, Option<Control>, Option<Said>) = (None, None, None);
        self.items.push_reserved(*item);
    }
}

/// What one event of a module gave, in order: contracts see the list of what is still to be taken.
#[derive(Debug, Drop)]
pub struct Basket {
    pub(crate) tray: Tray,
    pub(crate) next: usize,
}

impl Model for Basket {
    ghost use Rattle.std.specs.Prelude.{List, ◌≤◌, length, drop};
    ghost use Rattle.m17_control.specs.declared.item.Item.{Item};

    ghost Value = { List Item };

    ghost view = { λ b. drop b.next b.tray };

    ghost invariant = { λ b. b.next ≤ length b.tray };
}

impl Basket {
    /// An empty basket, with room for 520 items. It fails only where there is no memory.
    pub fn make(alloc: Global) -> Result<Basket, NoMemory>
        ensures { IfOk result (λ b. b ≡ []) }
    {
        let tray = Tray::make(alloc)?;
        Ok(Basket { tray, next: 0 })
    }

    /// Whether nothing is left in it.
    pub fn is_empty(&self) -> bool
        ensures { IsTrue result ↔ (self.now ≡ []) }
    {
        self.next == self.tray.len()
    }

    /// Takes the first item out; none exactly where the basket is empty.
    #[inline]
    pub fn take(&mut self) -> Option<Item>
        ensures first { self.old ≡ option_to_list result ++ self.new }
        ensures none { IsNone result ↔ (self.old ≡ []) }
    {
        if self.next == self.tray.len() {
            return None;
        }
        let item = self.tray.at(self.next);
        self.next += 1;
        Some(item)
    }
}
