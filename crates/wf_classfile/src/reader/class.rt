//! The class itself (JVMS 4.1).

ghost use Rattle.std.specs.Prelude.{◌≡◌, not, ◌&&◌, ◌||◌, length, nat_le, ◌<◌, ◌^◌, IfOk};
ghost use Rattle.std.specs.Str.{bytes_eq};
ghost use Rattle.wf_data.specs.Flags.{is_interface};
ghost use Rattle.wf_data.specs.Pool.{class_at};
ghost use Rattle.wf_names.specs.Names.{object_name};
ghost use Rattle.wf_bytes.specs.Reading.{many};
ghost use Rattle.wf_grammar.specs.Reading.{super_class, class_named, class_behind, class_file, class_of};
ghost use Rattle.wf_constpool.specs.Readers.{Gives, GivesAs, GivesValue};

use super::{Reader, bad};
use crate::members::Members;
use std::alloc::{AllocError, Global};
use wf_base::{Items, Text};
use wf_bytes::{Cursor, Why};
use wf_constpool::{ClassFault, read_pool, text_of};
use wf_data::{ClassInfo, PoolEntry, is_interface};
use wf_names::{is_class_name, is_object_name};

pub const MAGIC: u32 = 0xCAFEBABE;

impl<'a> Reader<'a> {
    #[tactic(auto, unfolding(wf_grammar::specs::Reading::super_class))]
    fn super_class(
        &mut self,
        pool: &[PoolEntry],
        flags: u16,
        name: &[u8],
    ) -> Result<Option<Text>, ClassFault>
        ensures { Gives self.new.cursor result (super_class pool.now flags name.now self.old.cursor) }
    {
        let at = self.at();
        let place = self.u2()?;
        if place == 0 {
            if !may_be_root(flags, name) {
                return Err(bad(at, Why::Super));
            }
            return Ok(None);
        }
        let superclass = class_name(pool, place)?.ok_or(bad(at, Why::Index))?;
        if !may_extend(flags, name, superclass.as_slice()) {
            return Err(bad(at, Why::Super));
        }
        Ok(Some(superclass))
    }

    #[tactic(auto, unfolding(wf_grammar::specs::Reading::class_named))]
    fn class_named(&mut self, pool: &[PoolEntry]) -> Result<Text, ClassFault>
        ensures { Gives self.new.cursor result (class_named pool.now self.old.cursor) }
    {
        let at = self.at();
        let place = self.u2()?;
        class_name(pool, place)?.ok_or(bad(at, Why::Index))
    }

    #[tactic(auto, using(wf_bytes::proofs::Loops::goes_on, wf_constpool::proofs::Loops::ends, wf_bytes::proofs::Loops::is_done))]
    fn interfaces(&mut self, pool: &[PoolEntry], count: u16) -> Result<Vec<Text>, ClassFault>
        ensures { GivesAs (λ interfaces. interfaces.items) self.new.cursor result (many (class_named pool.now) count self.old.cursor) }
    {
        let mut interfaces = Vec::new(self.alloc);
        for _ in 0..count {
            interfaces.push(self.class_named(pool)?)?;
        }
        Ok(interfaces)
    }

    /// What follows the pool.
    #[tactic(auto, unfolding(wf_grammar::specs::Reading::class_behind, wf_bytes::specs::Reading::counted, wf_bytes::specs::Reading::counted_on))]
    fn class_behind(&mut self, major: u16, pool: Items<PoolEntry>) -> Result<ClassInfo, ClassFault>
        ensures { Gives self.new.cursor result (class_behind major pool self.old.cursor) }
    {
        let flags = self.u2()?;
        let at = self.at();
        let name = self.class_named(pool.as_slice())?;
        if !is_class_name(name.as_slice()) {
            return Err(bad(at, Why::Name));
        }
        let superclass = self.super_class(pool.as_slice(), flags, name.as_slice())?;
        let count = self.u2()?;
        let interfaces = self.interfaces(pool.as_slice(), count)?;
        let mut members = Members::new(self.alloc, pool.as_slice());
        let count = self.u2()?;
        let fields = self.fields(&mut members, count)?;
        members.forget();
        let count = self.u2()?;
        let methods = self.methods(&mut members, count)?;
        // What is known borrows from the pool, which moves into the class.
        drop(members);
        let count = self.u2()?;
        self.skip_attributes(pool.as_slice(), count)?;
        Ok(ClassInfo {
            name,
            superclass,
            interfaces: Items::from_vec(interfaces),
            flags,
            major,
            pool,
            fields: Items::from_vec(fields),
            methods: Items::from_vec(methods),
        })
    }

    /// A class file, up to its last byte.
    #[tactic(auto, unfolding(wf_grammar::specs::Reading::class_file))]
    fn class_file(&mut self) -> Result<ClassInfo, ClassFault>
        ensures { Gives self.new.cursor result (class_file self.old.cursor) }
    {
        let at = self.at();
        if self.u4()? != MAGIC {
            return Err(bad(at, Why::Magic));
        }
        let _minor = self.u2()?;
        let at = self.at();
        let major = self.u2()?;
        if !is_known_version(major) {
            return Err(bad(at, Why::Version));
        }
        let pool = read_pool(self.alloc, &mut self.cursor)?;
        self.class_behind(major, pool)
    }
}

/// The class that the bytes of a file spell, all of them.
#[tactic(auto, unfolding(wf_grammar::specs::Reading::class_of))]
pub fn class_of(alloc: Global, file: &Text) -> Result<ClassInfo, ClassFault>
    requires { length file.now < 2 ^ 32 }
    ensures { GivesValue result (class_of file.now) }
{
    let mut reader = Reader {
        alloc,
        cursor: Cursor::over(file),
    };
    let class = reader.class_file()?;
    if !reader.cursor.is_done() {
        return Err(bad(reader.at(), Why::Trailing));
    }
    Ok(class)
}

/// The name of the class at a place.
fn class_name(pool: &[PoolEntry], place: u16) -> Result<Option<Text>, AllocError>
    ensures { IfOk result (λ name. name ≡ class_at pool.now place) }
{
    let Some(PoolEntry::Class(place)) = pool.get(place as usize) else {
        return Ok(None);
    };
    match text_of(pool, *place) {
        Some(name) => Ok(Some(name.clone()?)),
        None => Ok(None),
    }
}

/// Whether a class of these flags and this name may have no superclass.
pub fn may_be_root(flags: u16, name: &[u8]) -> bool
    ensures { result ≡ (bytes_eq name.now object_name && not (is_interface flags)) }
{
    is_object_name(name) && !is_interface(flags)
}

/// Whether it may have this superclass.
pub fn may_extend(flags: u16, name: &[u8], superclass: &[u8]) -> bool
    ensures { result ≡ (not (bytes_eq name.now object_name) && (not (is_interface flags) || bytes_eq superclass.now object_name)) }
{
    !is_object_name(name) && (!is_interface(flags) || is_object_name(superclass))
}

pub fn is_known_version(major: u16) -> bool
    ensures { result ≡ (nat_le 45 major && nat_le major 52) }
{
    45 <= major && major <= 52
}
