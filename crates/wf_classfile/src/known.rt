ghost use Rattle.std.specs.Prelude.{◌≡◌};
ghost use Rattle.wf_grammar.specs.ClassFile.{parameter_slots};
ghost use Rattle.wf_descriptor.specs.Descriptors.{is_field_descriptor, is_method_descriptor};
ghost use Rattle.wf_names.specs.Names.{is_field_name, is_method_name};

use std::alloc::AllocError;
use std::marker::Model;
use wf_base::Text;
use wf_data::is_static;
use wf_descriptor::{is_field_descriptor, is_method_descriptor};
use wf_names::{is_field_name, is_method_name};

/// A text, and whether it is a name or a descriptor of a member. Its bytes are gone through once, however
/// many members it names; clones share them.
#[derive(Debug, Drop)]
pub struct Known {
    text: Text,
    is_field_name: bool,
    is_method_name: bool,
    is_field_descriptor: bool,
    is_instance_descriptor: bool,
    is_static_descriptor: bool,
}

impl Model for Known {
    ghost use Rattle.std.specs.Prelude.{List, ℕ};
    ghost use Rattle.wf_classfile.specs.Answers.{IsAnswered};

    ghost Value = { List ℕ };

    ghost view = { λ k. k.text };

    ghost invariant = { λ k. IsAnswered k.text k.is_field_name k.is_method_name k.is_field_descriptor k.is_instance_descriptor k.is_static_descriptor };
}

impl Known {
    pub fn new(text: Text) -> Known
        ensures { result ≡ text }
    {
        let bytes = text.as_slice();
        let is_field_name = is_field_name(bytes);
        let is_method_name = is_method_name(bytes);
        let is_field_descriptor = is_field_descriptor(bytes);
        let is_instance_descriptor = is_method_descriptor(bytes, 254);
        let is_static_descriptor = is_method_descriptor(bytes, 255);
        Known {
            text,
            is_field_name,
            is_method_name,
            is_field_descriptor,
            is_instance_descriptor,
            is_static_descriptor,
        }
    }

    pub fn as_slice(&self) -> &[u8]
        ensures { result.now ≡ self.now }
    {
        self.text.as_slice()
    }

    pub fn into_text(self) -> Text
        ensures { result ≡ self }
    {
        self.text
    }

    pub fn is_field_name(&self) -> bool
        ensures { result ≡ is_field_name self.now }
    {
        self.is_field_name
    }

    pub fn is_method_name(&self) -> bool
        ensures { result ≡ is_method_name self.now }
    {
        self.is_method_name
    }

    pub fn is_field_descriptor(&self) -> bool
        ensures { result ≡ is_field_descriptor self.now }
    {
        self.is_field_descriptor
    }

    /// Whether it is the descriptor of a method with these flags. The receiver of an instance method takes one
    /// of the 255 slots (JVMS 4.3.3).
    pub fn is_method_descriptor(&self, flags: u16) -> bool
        ensures { result ≡ is_method_descriptor (parameter_slots flags) self.now }
    {
        if is_static(flags) {
            self.is_static_descriptor
        } else {
            self.is_instance_descriptor
        }
    }
}

impl Clone for Known {
    ghost is_clone = { λ known copy. copy ≡ known };

    fn clone(&self) -> Result<Known, AllocError> {
        Ok(Known {
            text: self.text.clone()?,
            is_field_name: self.is_field_name,
            is_method_name: self.is_method_name,
            is_field_descriptor: self.is_field_descriptor,
            is_instance_descriptor: self.is_instance_descriptor,
            is_static_descriptor: self.is_static_descriptor,
        })
    }
}
