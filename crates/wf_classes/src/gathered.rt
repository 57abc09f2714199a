ghost use Rattle.std.specs.Prelude.{◌≡◌, ◌≤◌, ◌<◌, ◌-◌, ◌++◌, ◌∷◌, [], ℕ, Some, Err, length, slice_get, IfOk, OnOk, OnErr};
ghost use Rattle.wf_data.specs.declared.class_info.ClassInfo.{ClassInfo};
ghost use Rattle.wf_grammar.specs.ClassFile.{Spells};
ghost use Rattle.wf_names.specs.Names.{object_name};
ghost use Rattle.wf_classes.specs.Gathering.{IsNew};
ghost use Rattle.wf_classes.specs.World.{IsClosingOf, Loadable};

use crate::classes::{Classes, close_world};
use crate::fault::CloseFault;
use std::alloc::{AllocError, Global};
use std::marker::Model;
use wf_base::Items;
use wf_data::ClassInfo;

/// The most bytes of all files together.
const MOST_BYTES: u32 = 536870912;

/// Classes that files spell, before they are closed: no two of one name, and all within the bytes that a run
/// takes.
#[derive(Debug, Drop)]
pub struct GatheredClasses {
    classes: Items<ClassInfo>,
    left: u32,
}

impl Model for GatheredClasses {
    ghost use Rattle.wf_classes.specs.Gathering.{Gathering, AreGathered};

    ghost Value = { Gathering };

    ghost view = { λ g. record { classes = g.classes; left = g.left } };

    ghost invariant = { λ g. AreGathered g.classes g.left };
}

impl GatheredClasses {
    /// No class yet.
    pub fn new(alloc: Global) -> GatheredClasses
        ensures classes { result.classes ≡ [] }
        ensures left { result.left ≡ 536870912 }
    {
        GatheredClasses {
            classes: Items::new(alloc),
            left: MOST_BYTES,
        }
    }

    /// The classes, in the order in which they came.
    pub fn list(&self) -> &Items<ClassInfo>
        ensures { result.now ≡ self.now.classes }
    {
        &self.classes
    }

    /// How many bytes further files may have.
    pub fn left(&self) -> u32
        ensures { result ≡ self.now.left }
    {
        self.left
    }

    /// Adds a class that the bytes of a file spell.
    pub fn add(&mut self, bytes: &[u8], class: ClassInfo) -> Result<(), AllocError>
        requires spelled { Spells bytes.now class }
        requires few { length self.old.classes < 65536 }
        requires room { length bytes.now ≤ self.old.left }
        requires new { IsNew self.old.classes class.name }
        ensures ok { OnOk result (self.new ≡ record { classes = self.old.classes ++ class ∷ []; left = self.old.left - length bytes.now }) }
        ensures err { OnErr result (self.new ≡ self.old) }
    {
        match self.classes.push(class) {
            Ok(()) => {
                self.left -= bytes.len() as u32;
                Ok(())
            }
            Err(_) => Err(AllocError),
        }
    }

    /// Closes the world of these classes.
    pub fn close(self, alloc: Global) -> Result<Classes, CloseFault>
        ensures closed { IfOk result (λ classes. IsClosingOf self.classes classes) }

        // Only where java/lang/Object isn't loadable.
        ensures no_object { result ≡ Err CloseFault.NoObject → Loadable self.classes object_name → ⊥ }
    {
        close_world(alloc, self.classes)
    }
}
