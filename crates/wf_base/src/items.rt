ghost use Rattle.std.specs.Prelude.{◌≡◌, ◌==◌, ◌++◌, ◌∷◌, [], length, OnOk, IfErr, OnErr};

use std::alloc::Global;
use std::marker::Model;

/// A list. A contract sees it as the list of its elements.
#[derive(Debug, Drop)]
pub struct Items<T> {
    items: Vec<T>,
}

impl<T> Model for Items<T> {
    ghost use Rattle.std.specs.Prelude.{List};

    ghost Value = { List T };

    ghost view = { λ i. i.items.items };
}

impl<T> Items<T> {
    ghost use Rattle.std.specs.Borrow.{sem};
    ghost use Rattle.wf_base.specs.Items.{LendsAll};

    /// The empty list, which takes no memory.
    pub fn new(alloc: Global) -> Items<T>
        ensures { result ≡ [] }
    {
        Items {
            items: Vec::new(alloc),
        }
    }

    pub fn from_vec(items: Vec<T>) -> Items<T>
        ensures { result ≡ items.items }
    {
        Items { items }
    }

    pub fn into_vec(self) -> Vec<T>
        ensures { result.items ≡ self }
    {
        self.items
    }

    /// Adds an element at the end. For want of memory it is handed back, and the list stays as it was.
    pub fn push(&mut self, value: T) -> Result<(), T>
        ensures ok { OnOk result (self.new ≡ self.old ++ value ∷ []) }
        ensures back { IfErr result (λ back. back ≡ value) }
        ensures err { OnErr result (self.new ≡ self.old) }
    {
        match self.items.push(value) {
            Ok(()) => Ok(()),
            Err(failed) => Err(failed.value),
        }
    }

    pub fn len(&self) -> usize
        ensures { result ≡ length self.now }
    {
        self.items.len()
    }

    pub fn is_empty(&self) -> bool
        ensures { result ≡ (length self.now == 0) }
    {
        self.items.is_empty()
    }

    pub fn as_slice(&self) -> &[T]
        ensures { result.now ≡ self.now }
    {
        self.items.as_slice()
    }

    pub fn as_mut_slice(&mut self) -> &mut [T]
        ensures* writes_back { sem 𝓛 (LendsAll T.row self.entry result) }
        ensures value { result.now ≡ self.old }
    {
        self.items.as_mut_slice()
    }
}
