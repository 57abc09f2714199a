//! The class itself (JVMS 4.1).

ghost use Rattle.std.specs.Prelude.{◌≡◌};
ghost use Rattle.wf_grammar.specs.Writing.{put_superclass, put_interfaces, put_classes, put_members, put_class};
ghost use Rattle.wf_classfile.specs.Writers.{Writes};

use super::constants::put_pool;
use super::items::{put_count, put_u2, put_u4};
use super::members::{put_fields, put_methods};
use super::places::put_class_place;
use crate::fault::SpellFault;
use crate::keys::Keys;
use crate::reader::{MAGIC, is_known_version, may_be_root, may_extend};
use std::alloc::Global;
use wf_base::Text;
use wf_data::{ClassInfo, PoolEntry};
use wf_names::is_class_name;

/// The superclass: none in java/lang/Object alone, and java/lang/Object in every interface.
#[tactic(auto, unfolding(wf_grammar::specs::Writing::put_superclass))]
fn put_superclass(out: &mut Vec<u8>, class: &ClassInfo) -> Result<(), SpellFault>
    ensures { Writes out.new.items result (put_superclass class.now class.now.superclass out.old.items) }
{
    let name = class.name.as_slice();
    match &class.superclass {
        None if may_be_root(class.flags, name) => put_u2(out, 0),
        Some(superclass) if may_extend(class.flags, name, superclass.as_slice()) => {
            put_class_place(out, class.pool.as_slice(), superclass.as_slice())
        }
        _ => Err(SpellFault::NotSpellable),
    }
}

fn put_interfaces(
    out: &mut Vec<u8>,
    pool: &[PoolEntry],
    interfaces: &[Text],
) -> Result<(), SpellFault>
    ensures { Writes out.new.items result (put_interfaces pool.now interfaces.now out.old.items) }
{
    for name in interfaces {
        put_class_place(out, pool, name.as_slice())?;
    }
    Ok(())
}

/// The class and what it stands below.
#[tactic(auto, unfolding(wf_grammar::specs::Writing::put_classes))]
fn put_classes(out: &mut Vec<u8>, class: &ClassInfo) -> Result<(), SpellFault>
    ensures { Writes out.new.items result (put_classes class.now out.old.items) }
{
    let pool = class.pool.as_slice();
    let name = class.name.as_slice();
    let interfaces = class.interfaces.as_slice();
    if !is_class_name(name) {
        return Err(SpellFault::NotSpellable);
    }
    put_u2(out, class.flags)?;
    put_class_place(out, pool, name)?;
    put_superclass(out, class)?;
    put_count(out, interfaces.len())?;
    put_interfaces(out, pool, interfaces)
}

/// The fields and the methods.
#[tactic(auto, unfolding(wf_grammar::specs::Writing::put_members))]
fn put_members(alloc: Global, out: &mut Vec<u8>, class: &ClassInfo) -> Result<(), SpellFault>
    ensures { Writes out.new.items result (put_members class.now out.old.items) }
{
    let pool = class.pool.as_slice();
    let fields = class.fields.as_slice();
    let methods = class.methods.as_slice();
    put_count(out, fields.len())?;
    put_fields(out, pool, &mut Keys::new(alloc), fields)?;
    put_count(out, methods.len())?;
    put_methods(out, pool, &mut Keys::new(alloc), methods)?;
    put_u2(out, 0)
}

/// A class file.
#[tactic(auto, unfolding(wf_grammar::specs::Writing::put_class))]
pub fn put_class(alloc: Global, out: &mut Vec<u8>, class: &ClassInfo) -> Result<(), SpellFault>
    ensures { Writes out.new.items result (put_class class.now out.old.items) }
{
    if !is_known_version(class.major) {
        return Err(SpellFault::NotSpellable);
    }
    put_u4(out, MAGIC)?;
    put_u2(out, 0)?;
    put_u2(out, class.major)?;
    put_pool(out, class.pool.as_slice())?;
    put_classes(out, class)?;
    put_members(alloc, out, class)
}
