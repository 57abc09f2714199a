//! Trees whose classes are written as listings.

use super::{Ran, WORDS, run, sink};
use std::alloc::Global;
use std::test::Fail;
use std::thread::Threads;
use wf_asm::assemble;
use wf_base::{Items, Text};
use wf_classfile::write_class;
use wf_data::ClassInfo;
use wf_io::{MemFile, TreeMem};

/// `java/lang/Object` with its constructor.
pub const OBJECT: &str = "
    class java/lang/Object
    method <init> ()V
      return
    end
";

/// The classes that a listing says.
pub fn classes_of(alloc: Global, listing: &str) -> Result<Items<ClassInfo>, Fail> {
    if listing.len() > 1_000_000 {
        return Ok(Items::new(alloc));
    }
    Ok(assemble(alloc, listing.as_bytes())?)
}

/// The bytes of the one class that a listing says.
pub fn class_bytes(alloc: Global, listing: &str) -> Result<Text, Fail> {
    match classes_of(alloc, listing)?.as_slice() {
        [class] => Ok(write_class(alloc, class)?),
        _ => Ok(Text::new(alloc)),
    }
}

/// The files of the classes that a listing says, each at its path below `d`.
fn files_of(alloc: Global, listing: &str) -> Result<Vec<MemFile>, Fail> {
    let mut files = Vec::new(alloc);
    for class in classes_of(alloc, listing)?.as_slice() {
        let mut path = Text::from_slice(alloc, b"d/")?;
        path.push_slice(class.name.as_slice())?;
        path.push_slice(b".class")?;
        let bytes = write_class(alloc, class)?;
        files.push(MemFile { path, bytes })?;
    }
    Ok(files)
}

/// The run over these classes and `java/lang/Object` with the root `static A.main ()V`.
pub fn run_listing<R: Threads + Sync + AllocGlobal>(rt: &R, listing: &str) -> Result<Ran, Fail> {
    let alloc = rt.alloc();
    let mut text = String::from_str(alloc, OBJECT)?;
    text.push_str(listing)?;
    let mut files = files_of(alloc, text.as_str())?;
    let path = Text::from_slice(alloc, b"r")?;
    let bytes = Text::from_slice(alloc, b"static A.main ()V\n")?;
    files.push(MemFile { path, bytes })?;
    let tree = TreeMem::new(Items::from_vec(files), Items::new(alloc));
    Ok(run(rt, &WORDS, tree, sink(alloc, 3000, &[])?)?)
}

/// The class of examples/never_returns, as its listing says it.
const NEVER_RETURNS: &str = "
    class A
    method static f ()I
      iconst_3
      ireturn
    end
    method static g ()V
      invokestatic A.g ()V
      invokestatic A.f ()I
      return
    end
    method static main ()V
      invokestatic A.g ()V
      return
    end
";

/// Its bytes, written by hand, which `javap` prints as the listing.
const NEVER_RETURNS_BYTES: &[u8] =
    b"\xca\xfe\xba\xbe\x00\x00\x004\x00\x0f\x07\x00\x02\x01\x00\x01A\x07\x00\x04\x01\x00\x10java/lang/Object\x01\x00\x01f\x01\x00\x03()I\x01\x00\x04Code\x01\x00\x01g\x01\x00\x03()V\x0a\x00\x01\x00\x0b\x0c\x00\x08\x00\x09\x0a\x00\x01\x00\x0d\x0c\x00\x05\x00\x06\x01\x00\x04main\x00!\x00\x01\x00\x03\x00\x00\x00\x00\x00\x03\x00\x09\x00\x05\x00\x06\x00\x01\x00\x07\x00\x00\x00\x0e\x00 \x00 \x00\x00\x00\x02\x06\xac\x00\x00\x00\x00\x00\x09\x00\x08\x00\x09\x00\x01\x00\x07\x00\x00\x00\x13\x00 \x00 \x00\x00\x00\x07\xb8\x00\x0a\xb8\x00\x0c\xb1\x00\x00\x00\x00\x00\x09\x00\x0e\x00\x09\x00\x01\x00\x07\x00\x00\x00\x10\x00 \x00 \x00\x00\x00\x04\xb8\x00\x0a\xb1\x00\x00\x00\x00\x00\x00";

#[test]
fn a_listing_has_these_bytes(rt: HostRuntime) -> Result<(), Fail> {
    let bytes = class_bytes(rt.alloc(), NEVER_RETURNS)?;
    assert_eq!(rt; bytes.as_slice(), NEVER_RETURNS_BYTES);
    Ok(())
}

/// A class with each form of line.
const EACH_FORM: &str = "
    # nothing is said by this line, and by the empty one

    abstract p/B extends A implements I J
    field package x I
    field static n I = -5
    method protected native h (IJ)V
    method abstract k ()V
    method private static m (I)I
      ldc \"a b\"
    L:
      pop
      ldc int 70000
      ldc long -1
      pop2
      ldc class [I
      pop
      iinc 0 -1
      wide iinc 0 300
      iload_0
      tableswitch 1 L M default N
    M:
      iload 0
      lookupswitch -1 M 7 N default L
    N:
      bipush 3
      newarray int
      pop
      iconst_1
      iconst_1
      multianewarray [[I 2
      pop
      invokestatic interface I.s ()V
      aconst_null
      invokeinterface J.k (IJ)V
      getstatic p/B.n I
      ireturn
      catch L M N java/lang/Throwable
      catch M N N any
    end
";

/// Its bytes, laid out by hand from the tables of the specification; `javap` prints them as the listing.
const EACH_FORM_BYTES: &[u8] =
    b"\xca\xfe\xba\xbe\x00\x00\x004\x00&\x07\x00\x02\x01\x00\x03p/B\x07\x00\x04\x01\x00\x01A\x07\x00\x06\x01\x00\x01I\x07\x00\x08\x01\x00\x01J\x01\x00\x01x\x01\x00\x01n\x01\x00\x0dConstantValue\x03\xff\xff\xff\xfb\x01\x00\x01h\x01\x00\x05(IJ)V\x01\x00\x01k\x01\x00\x03()V\x01\x00\x01m\x01\x00\x04(I)I\x01\x00\x04Code\x08\x00\x15\x01\x00\x03a b\x03\x00\x01\x11p\x05\xff\xff\xff\xff\xff\xff\xff\xff\x07\x00\x1a\x01\x00\x02[I\x07\x00\x1c\x01\x00\x03[[I\x0b\x00\x05\x00\x1e\x0c\x00\x1f\x00\x10\x01\x00\x01s\x0b\x00\x07\x00!\x0c\x00\x0f\x00\x0e\x09\x00\x01\x00#\x0c\x00\x0a\x00\x06\x07\x00%\x01\x00\x13java/lang/Throwable\x04!\x00\x01\x00\x03\x00\x02\x00\x05\x00\x07\x00\x02\x00\x00\x00\x09\x00\x06\x00\x00\x00\x09\x00\x0a\x00\x06\x00\x01\x00\x0b\x00\x00\x00\x02\x00\x0c\x00\x03\x01\x04\x00\x0d\x00\x0e\x00\x00\x04\x01\x00\x0f\x00\x10\x00\x00\x00\x0a\x00\x11\x00\x12\x00\x01\x00\x13\x00\x00\x00}\x00 \x00 \x00\x00\x00a\x12\x14W\x12\x16\x14\x00\x17X\x12\x19W\x84\x00\xff\xc4\x84\x00\x00\x01,\x1a\xaa\x00\x00\x00\x002\x00\x00\x00\x01\x00\x00\x00\x02\xff\xff\xff\xec\x00\x00\x00\x16\x15\x00\xab\x00\xff\xff\xff\xd4\x00\x00\x00\x02\xff\xff\xff\xff\xff\xff\xff\xfe\x00\x00\x00\x07\x00\x00\x00\x1a\x10\x03\xbc\x0aW\x04\x04\xc5\x00\x1b\x02W\xb8\x00\x1d\x01\xb9\x00 \x04\x00\xb2\x00\"\xac\x00\x02\x00\x02\x00,\x00H\x00$\x00,\x00H\x00H\x00\x00\x00\x00\x00\x00";

#[test]
fn each_form_of_line_has_its_bytes(rt: HostRuntime) -> Result<(), Fail> {
    let bytes = class_bytes(rt.alloc(), EACH_FORM)?;
    assert_eq!(rt; bytes.as_slice(), EACH_FORM_BYTES);
    Ok(())
}
