//! Classes that are written as a listing or given as files, closed.

ghost use Rattle.std.specs.Prelude.{◌≡◌, false};
ghost use Rattle.wf_classes.specs.Gathering.{IsNew};
ghost use Rattle.wf_grammar.specs.ClassFile.{Spells};

use std::alloc::Global;
use std::test::Fail;
use wf_asm::assemble;
use wf_classes::{Classes, GatheredClasses};
use wf_classfile::{read_class, write_class};
use wf_data::ClassInfo;

/// How long a listing or a file of a test may be: the readers take less than 4 GiB.
const LONGEST: usize = 1_000_000;

/// Whether one of the classes has the name.
fn is_named(classes: &[ClassInfo], name: &[u8]) -> bool
    ensures { result ≡ false → IsNew classes.now name.now }
{
    for class in classes {
        if class.name.as_slice() == name {
            return true;
        }
    }
    false
}

/// Adds the class of a file, if there is room for it and its name is new.
fn add(gathered: &mut GatheredClasses, bytes: &[u8], class: ClassInfo) -> Result<bool, Fail>
    requires { Spells bytes.now class }
{
    let room = bytes.len() <= gathered.left() as usize;
    let few = gathered.list().len() < 65536;
    let named = is_named(gathered.list().as_slice(), class.name.as_slice());
    if room && few && !named {
        gathered.add(bytes, class)?;
        Ok(true)
    } else {
        Ok(false)
    }
}

/// Adds the classes of a listing.
fn add_listing(
    alloc: Global,
    gathered: &mut GatheredClasses,
    listing: &[u8],
) -> Result<bool, Fail> {
    if listing.len() > LONGEST {
        return Ok(false);
    }
    for class in assemble(alloc, listing)?.into_vec() {
        let file = write_class(alloc, &class)?;
        if !add(gathered, file.as_slice(), class)? {
            return Ok(false);
        }
    }
    Ok(true)
}

/// Adds the class of a class file.
fn add_file(alloc: Global, gathered: &mut GatheredClasses, file: &[u8]) -> Result<bool, Fail> {
    if file.len() > LONGEST {
        return Ok(false);
    }
    let class = read_class(alloc, file)?;
    add(gathered, file, class)
}

/// The classes of a listing, closed. `None` where the listing is too long, or names a class twice.
pub fn closed(alloc: Global, listing: &[u8]) -> Result<Option<Classes>, Fail> {
    let mut gathered = GatheredClasses::new(alloc);
    if !add_listing(alloc, &mut gathered, listing)? {
        return Ok(None);
    }
    Ok(Some(gathered.close(alloc)?))
}

/// The classes of a listing and of class files, closed. `None` as for `closed`.
pub fn closed_with(
    alloc: Global,
    listing: &[u8],
    files: &[&[u8]],
) -> Result<Option<Classes>, Fail> {
    let mut gathered = GatheredClasses::new(alloc);
    if !add_listing(alloc, &mut gathered, listing)? {
        return Ok(None);
    }
    for file in files {
        if !add_file(alloc, &mut gathered, file)? {
            return Ok(None);
        }
    }
    Ok(Some(gathered.close(alloc)?))
}
