//! The constants of a class.

ghost use Rattle.std.specs.Prelude.{◌≡◌, ◌+◌, ◌≤◌, [], ◌∷◌, length, IfOk, OnOk};
ghost use Rattle.wf_names.specs.declared.member.MemberName.{MemberName};
ghost use Rattle.wf_listing.specs.declared.listing.Constant.TheVariants as constant;
ghost use Rattle.wf_asm.specs.Constants.{class_parts, name_type_parts, member_parts, parts_of, with_constant, with_constants, place_of, entry_of, pool_of};

use indexmap::IndexSet;
use std::alloc::{AllocError, Global};
use std::marker::Model;
use wf_base::{Items, Text};
use wf_data::PoolEntry;
use wf_listing::Constant;
use wf_names::MemberName;

/// The constants that a class uses, in the order of their places from 1 on.
#[derive(Drop)]
pub struct Pool {
    constants: IndexSet<Constant>,
}

impl Model for Pool {
    ghost use Rattle.std.specs.Prelude.{List};
    ghost use Rattle.wf_listing.specs.declared.listing.Constant.{Constant};

    ghost Value = { List Constant };

    ghost view = { λ p. p.constants.keys };
}

impl Pool {
    pub fn new(alloc: Global) -> Pool
        ensures { result ≡ [] }
    {
        Pool {
            constants: IndexSet::new(alloc),
        }
    }

    /// Adds a constant, if it isn't there.
    pub fn add(&mut self, constant: Constant) -> Result<(), AllocError>
        ensures { OnOk result (self.new ≡ with_constant self.old constant) }
    {
        self.constants.insert(constant)?;
        Ok(())
    }

    /// How many constants stand before this one.
    fn index(&self, constant: &Constant) -> usize
        ensures place { result + 1 ≡ place_of self.now constant.now }
        ensures within { result ≤ length self.now }
    {
        match self.constants.get_index_of(constant) {
            Some(index) => index,
            None => self.constants.len(),
        }
    }

    /// The place of a constant that is there.
    pub fn place(&self, constant: &Constant) -> u16
        requires { length self.now ≤ 65534 }
        ensures { result ≡ place_of self.now constant.now }
    {
        (self.index(constant) + 1) as u16
    }

    pub fn len(&self) -> usize
        ensures { result ≡ length self.now }
    {
        self.constants.len()
    }

    pub fn as_slice(&self) -> &[Constant]
        ensures { result.now ≡ self.now }
    {
        self.constants.as_slice()
    }

    /// Adds a text.
    pub fn add_text(&mut self, text: &Text) -> Result<(), AllocError>
        ensures { OnOk result (self.new ≡ with_constant self.old (constant.Text text.now)) }
    {
        self.add(Constant::Text(text.clone()?))
    }

    /// Adds a class with its name.
    pub fn add_class(&mut self, name: &Text) -> Result<(), AllocError>
        ensures { OnOk result (self.new ≡ with_constants self.old (class_parts name.now)) }
    {
        self.add(Constant::Class(name.clone()?))?;
        self.add_text(name)
    }

    fn add_name_type(&mut self, name: &Text, desc: &Text) -> Result<(), AllocError>
        ensures { OnOk result (self.new ≡ with_constants self.old (name_type_parts name.now desc.now)) }
    {
        self.add(Constant::NameType(name.clone()?, desc.clone()?))?;
        self.add_text(name)?;
        self.add_text(desc)
    }

    fn add_member(&mut self, member: &MemberName) -> Result<(), AllocError>
        ensures { OnOk result (self.new ≡ with_constants self.old (member_parts member.now)) }
    {
        self.add_class(&member.class)?;
        self.add_name_type(&member.name, &member.desc)
    }

    /// Adds a constant with those that it names.
    pub fn add_parts(&mut self, constant: &Constant) -> Result<(), AllocError>
        ensures { OnOk result (self.new ≡ with_constants self.old (parts_of constant.now)) }
    {
        match constant {
            Constant::Text(text) => self.add_text(text),
            Constant::Class(name) => self.add_class(name),
            Constant::Str(text) => {
                self.add(Constant::Str(text.clone()?))?;
                self.add_text(text)
            }
            Constant::Int(n) => self.add(Constant::Int(*n)),
            Constant::Long(n) => {
                self.add(Constant::Long(*n))?;
                self.add(Constant::Behind(*n))
            }
            Constant::Behind(n) => self.add(Constant::Behind(*n)),
            Constant::NameType(name, desc) => self.add_name_type(name, desc),
            Constant::Field(member) => {
                self.add(Constant::Field(copy_of(member)?))?;
                self.add_member(member)
            }
            Constant::Method(member) => {
                self.add(Constant::Method(copy_of(member)?))?;
                self.add_member(member)
            }
            Constant::InterfaceMethod(member) => {
                self.add(Constant::InterfaceMethod(copy_of(member)?))?;
                self.add_member(member)
            }
        }
    }

    fn text_place(&self, text: &Text) -> Result<u16, AllocError>
        requires { length self.now ≤ 65534 }
        ensures { IfOk result (λ place. place ≡ place_of self.now (constant.Text text.now)) }
    {
        Ok(self.place(&Constant::Text(text.clone()?)))
    }

    /// The place of a class.
    pub fn class_place(&self, name: &Text) -> Result<u16, AllocError>
        requires { length self.now ≤ 65534 }
        ensures { IfOk result (λ place. place ≡ place_of self.now (constant.Class name.now)) }
    {
        Ok(self.place(&Constant::Class(name.clone()?)))
    }

    fn name_type_place(&self, name: &Text, desc: &Text) -> Result<u16, AllocError>
        requires { length self.now ≤ 65534 }
        ensures { IfOk result (λ place. place ≡ place_of self.now (constant.NameType name.now desc.now)) }
    {
        Ok(self.place(&Constant::NameType(name.clone()?, desc.clone()?)))
    }

    /// What stands at a constant's place.
    fn entry(&self, constant: &Constant) -> Result<PoolEntry, AllocError>
        requires { length self.now ≤ 65534 }
        ensures { IfOk result (λ entry. entry ≡ entry_of self.now constant.now) }
    {
        Ok(match constant {
            Constant::Text(text) => PoolEntry::Utf8(text.clone()?),
            Constant::Class(name) => PoolEntry::Class(self.text_place(name)?),
            Constant::Str(text) => PoolEntry::Str(self.text_place(text)?),
            Constant::Int(n) => PoolEntry::Integer(*n),
            Constant::Long(n) => PoolEntry::Long(*n),
            Constant::Behind(_) => PoolEntry::Unusable,
            Constant::NameType(name, desc) => {
                PoolEntry::NameType(self.text_place(name)?, self.text_place(desc)?)
            }
            Constant::Field(m) => {
                PoolEntry::Field(
                    self.class_place(&m.class)?,
                    self.name_type_place(&m.name, &m.desc)?,
                )
            }
            Constant::Method(m) => {
                PoolEntry::Method(
                    self.class_place(&m.class)?,
                    self.name_type_place(&m.name, &m.desc)?,
                )
            }
            Constant::InterfaceMethod(m) => PoolEntry::InterfaceMethod(
                self.class_place(&m.class)?,
                self.name_type_place(&m.name, &m.desc)?,
            ),
        })
    }

    /// The pool of these constants.
    pub fn entries(&self, alloc: Global) -> Result<Items<PoolEntry>, AllocError>
        requires { length self.now ≤ 65534 }
        ensures { IfOk result (λ pool. pool ≡ pool_of self.now) }
    {
        let mut pool = Vec::with_capacity(alloc, self.len() + 1)?;
        pool.push(PoolEntry::Unusable)?;
        for constant in self.as_slice() {
            pool.push(self.entry(constant)?)?;
        }
        Ok(Items::from_vec(pool))
    }
}

fn copy_of(member: &MemberName) -> Result<MemberName, AllocError>
    ensures { IfOk result (λ copy. copy ≡ member.now) }
{
    Ok(MemberName {
        class: member.class.clone()?,
        name: member.name.clone()?,
        desc: member.desc.clone()?,
    })
}
