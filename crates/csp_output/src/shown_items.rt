//! Items, written.
ghost use Rattle.std.specs.Prelude.{◌≡◌, [], OnOk};
ghost use Rattle.std.specs.List.{flat_map};
ghost use Rattle.csp_output.specs.Lines.{item_text};

use crate::lines::push_items;
use csp_model::{Item, List, Memory};
use std::alloc::Global;
use std::marker::Model;

// Items, and what they are written as. Contracts see the items.
#[derive(Drop)]
pub(crate) struct ShownItems {
    items: List<Item>,
    text: Vec<u8>,
}

impl Model for ShownItems {
    ghost use Rattle.std.specs.Prelude as std_words;
    ghost use Rattle.std.specs.Prelude.{◌≡◌};
    ghost use Rattle.std.specs.List.{flat_map};
    ghost use Rattle.csp_model.specs.declared.verdict.Item.{Item as ItemValue};
    ghost use Rattle.csp_output.specs.Lines.{item_text};

    ghost Value = { std_words.List ItemValue };

    ghost view = { λ a. a.items };

    ghost invariant = { λ a. a.text.items ≡ flat_map item_text a.items };
}

impl ShownItems {
    // No item. It keeps the allocator, and takes no memory.
    pub(crate) fn new(alloc: Global) -> ShownItems
        ensures { result ≡ [] }
    {
        ShownItems {
            items: List::new(alloc),
            text: Vec::new(alloc),
        }
    }

    // Has these items from now on. Those that are there already aren't written anew.
    pub(crate) fn replace(&mut self, alloc: Global, items: List<Item>) -> Result<(), Memory>
        ensures { OnOk result (self.new ≡ items) }
    {
        if self.items == items {
            return Ok(());
        }
        self.items = List::new(alloc);
        self.text.clear();
        if push_items(&mut self.text, items.as_slice()).is_err() {
            self.text.clear();
            return Err(Memory);
        }
        self.items = items;
        Ok(())
    }

    // What they are written as.
    pub(crate) fn as_slice(&self) -> &[u8]
        ensures { result.now ≡ flat_map item_text self.now }
    {
        self.text.as_slice()
    }
}
