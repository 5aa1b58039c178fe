// The names that are at some items.
ghost use Rattle.std.specs.Prelude.{◌≡◌, List, [], OnOk, OnErr};
ghost use Rattle.icl_lexer.specs.Values.{SeenItem};
ghost use Rattle.icl_lexer.specs.Views.{seen_item};
ghost use Rattle.icl_declarations.specs.Parts.{is_taken};
ghost use Rattle.icl_declarations.specs.Taken.{AreStill, AreTaken, IsOneMore};

use crate::scope::Scope;
use icl_lexer::{Item, What};
use ij_bits::OutOfMemory;
use std::alloc::Global;

/// The names that are at some items: a table for each kind of items whose names differ among themselves.
#[derive(Drop)]
pub struct Taken {
    signals: Scope,
    interfaces: Scope,
    links: Scope,
    enums: Scope,
    parameters: Scope,
}

impl Taken {
    /// The names of no item. Takes no memory.
    pub fn new(alloc: Global) -> Taken
        ensures { AreTaken result [] }
    {
        Taken {
            signals: Scope::new(alloc),
            interfaces: Scope::new(alloc),
            links: Scope::new(alloc),
            enums: Scope::new(alloc),
            parameters: Scope::new(alloc),
        }
    }

    /// Adds the name of an item. After want of memory the names are as they were.
    pub fn note_item(&mut self, alloc: Global, item: &Item) -> Result<(), OutOfMemory>
        ensures ok { OnOk result (IsOneMore self.old self.new (seen_item item.now)) }
        ensures err { OnErr result (AreStill self.old self.new) }
    {
        let name = item.name.as_slice();
        match &item.what {
            What::Interface { .. } => self.interfaces.note(alloc, name),
            What::Link { .. } => self.links.note(alloc, name),
            What::Words { .. } => self.enums.note(alloc, name),
            What::Parameter { .. } => self.parameters.note(alloc, name),
            What::Attribute { .. } => Ok(()),
            _ => self.signals.note(alloc, name),
        }
    }

    /// Whether the name of an item is one of those from which it differs.
    pub fn has(&self, item: &Item) -> bool
        ensures { (items : List SeenItem) → AreTaken self.now items
            → result ≡ is_taken items (seen_item item.now) }
    {
        let name = item.name.as_slice();
        match &item.what {
            What::Interface { .. } => self.interfaces.has(name),
            What::Link { .. } => self.links.has(name),
            What::Words { .. } => self.enums.has(name),
            What::Parameter { .. } => self.parameters.has(name),
            What::Attribute { .. } => false,
            _ => self.signals.has(name),
        }
    }
}
