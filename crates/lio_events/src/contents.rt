//! Lists of contents.
ghost use Rattle.std.specs.Prelude.{◌≡◌, ◌++◌, ◌∷◌, [], OnOk, OnErr, MatchOption};

use lio_clauses::NoMemory;
use lio_values::Content;
use std::alloc::Global;
use std::marker::Model;
use std::mem;

/// A list of contents, which keeps the allocator that it was made with. Its front can be taken out.
#[derive(Drop)]
pub struct Contents {
    /// The contents, behind so many that were taken out.
    items: Vec<Content>,
    taken: usize,
}

impl Model for Contents {
    ghost use Rattle.std.specs.Prelude.{◌≤◌, List, drop as drop_first, length};
    ghost use Rattle.lio_values.specs.declared.value.Content.{Content};
    ghost use Rattle.lio_values.specs.contracts.value.Content as content;
    ghost use Rattle.std.specs.Coded.{coded_list};

    ghost Value = { List Content };

    ghost coded = { coded_list content.the_row.coded };

    ghost view = { λ contents. drop_first contents.taken contents.items.items };

    ghost invariant = { λ contents. contents.taken ≤ length contents.items.items };
}

impl Contents {
    /// The empty list.
    pub fn new(alloc: Global) -> Contents
        ensures { result ≡ [] }
    {
        Contents {
            items: Vec::new(alloc),
            taken: 0,
        }
    }

    /// Puts a content last. After a refusal the list is as before.
    pub fn push(&mut self, content: Content) -> Result<(), NoMemory>
        ensures ok { OnOk result (self.new ≡ self.old ++ content ∷ []) }
        ensures err { OnErr result (self.new ≡ self.old) }
    {
        self.items.push(content)?;
        Ok(())
    }

    /// The contents in order.
    pub fn as_slice(&self) -> &[Content]
        ensures { result.now ≡ self.now }
    {
        &self.items[self.taken..]
    }

    /// Takes the first content out, if there is one, at the same cost however many there are. It
    /// takes no memory.
    pub fn take_front(&mut self) -> Option<Content>
        ensures { MatchOption result ((self.old ≡ []) × (self.new ≡ []))
            (λ content. self.old ≡ content ∷ self.new) }
    {
        let first = self.items.get_mut(self.taken)?;
        let content = mem::replace(first, Content::Hidden);
        self.taken += 1;
        Some(content)
    }
}
