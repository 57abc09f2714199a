ghost use Rattle.std.specs.Prelude.{◌≡◌, ◌≤◌, ◌++◌, ◌∷◌, [], length, IfOk};
ghost use Rattle.wf_runs.specs.Run.{Gives, Does, Answers, leaves};
ghost use Rattle.world.specs.Load.{class_path, add_class, take_file, load_file, classes_run, rooted, roots_run, load_run};

use std::alloc::{AllocError, Global};
use wf_base::{Items, Text};
use wf_classfile::read_class;
use wf_constpool::ClassFault;
use wf_data::ClassInfo;
use wf_first::{
    Program, calls_are_known, has_object, is_first_form, is_within_limits, only_line, root_in,
};
use wf_io::Tree;
use wf_runs::{Refusal, RunFault};
use wf_walk::{File, MAX_BYTES, MAX_FILE_BYTES, path_in, read_file, walk_from};

/// The class files read so far.
#[derive(Debug, Drop)]
pub struct ReadSoFar {
    /// How many bytes may still be read.
    pub left: u32,
    pub classes: Items<ClassInfo>,
}

/// The path at which a class has to stand.
fn class_path(alloc: Global, dir: &Text, name: &Text) -> Result<Text, AllocError>
    ensures { IfOk result (λ path. path ≡ class_path dir.now name.now) }
{
    let mut path = path_in(alloc, dir, name)?;
    path.push_slice(b".class")?;
    Ok(path)
}

/// Adds a class, behind which so many bytes may still be read.
fn push_class(so_far: &mut ReadSoFar, left: u32, class: ClassInfo) -> Result<(), RunFault>
    ensures { Answers (Gives (record { left = left; classes = so_far.old.classes ++ class ∷ [] })) (leaves so_far.new result) }
{
    match so_far.classes.push(class) {
        Ok(()) => {
            so_far.left = left;
            Ok(())
        }
        Err(_) => Err(RunFault::NoMemory),
    }
}

/// Adds the class of a file, where the file stands at the path of its name and the class is of the first
/// form.
fn add_class(
    alloc: Global,
    dir: &Text,
    file: File,
    so_far: &mut ReadSoFar,
    class: ClassInfo,
) -> Result<(), RunFault>
    requires { length file.bytes ≤ so_far.old.left }
    ensures { Answers (add_class dir.now file so_far.old class) (leaves so_far.new result) }
{
    let right = class_path(alloc, dir, &class.name)?;
    if file.path.as_slice() != right.as_slice() {
        return Err(RunFault::Refused(Refusal::WrongName {
            file: file.path,
            name: class.name,
        }));
    }
    if !is_first_form(alloc, &class)? {
        return Err(RunFault::Refused(Refusal::Unbuilt));
    }
    let left = so_far.left - file.bytes.as_slice().len() as u32;
    push_class(so_far, left, class)
}

/// Takes a noted file that was read: the sum of the lengths, the grammar, and the name and form of the class.
fn take_file(alloc: Global, dir: &Text, file: File, so_far: &mut ReadSoFar) -> Result<(), RunFault>
    requires { length file.bytes ≤ MAX_FILE_BYTES }
    ensures { Answers (take_file dir.now file so_far.old) (leaves so_far.new result) }
{
    let left = so_far.left;
    if file.bytes.as_slice().len() > left as usize {
        return Err(RunFault::Refused(Refusal::Unbuilt));
    }
    match read_class(alloc, file.bytes.as_slice()) {
        Ok(class) => add_class(alloc, dir, file, so_far, class),
        Err(ClassFault::Bad { offset, why }) => Err(RunFault::Refused(Refusal::BadClass {
            file: file.path,
            offset,
            why,
        })),
        Err(ClassFault::NoMemory) => Err(RunFault::NoMemory),
    }
}

/// Reads a noted file.
fn load_file<T: Tree>(
    alloc: Global,
    tree: &mut T,
    dir: &Text,
    path: &Text,
    so_far: &mut ReadSoFar,
) -> Result<(), RunFault>
    ensures { Does (load_file dir.now path.now so_far.old) (T.seen tree.old) (T.seen tree.new) (leaves so_far.new result) }
{
    let path = Text::from_slice(alloc, path.as_slice())?;
    let file = read_file(alloc, tree, path)?;
    take_file(alloc, dir, file, so_far)
}

/// Reads the noted files in their order, and gives their classes. The first file that passes a limit, spells
/// no class, or whose class belongs at another path or isn't of the form is refused.
fn read_classes<T: Tree>(
    alloc: Global,
    tree: &mut T,
    dir: &Text,
    paths: &Items<Text>,
) -> Result<Items<ClassInfo>, RunFault>
    ensures { Does (classes_run dir.now paths.now) (T.seen tree.old) (T.seen tree.new) result }
{
    let mut so_far = ReadSoFar {
        left: MAX_BYTES,
        classes: Items::new(alloc),
    };
    for path in paths.as_slice() {
        load_file(alloc, tree, dir, path, &mut so_far)?;
    }
    Ok(so_far.classes)
}

/// Makes a program of the classes and the root that the bytes of a roots file name.
fn rooted(alloc: Global, classes: Items<ClassInfo>, roots: &Text) -> Result<Program, RunFault>
    ensures { Answers (rooted classes roots.now) result }
{
    let Some(root) = root_in(alloc, classes.as_slice(), only_line(roots.as_slice()))? else {
        return Err(RunFault::Refused(Refusal::Unbuilt));
    };
    if !calls_are_known(alloc, classes.as_slice())? {
        return Err(RunFault::Refused(Refusal::Unbuilt));
    }
    if !is_within_limits(alloc, classes.as_slice())? {
        return Err(RunFault::Refused(Refusal::Unbuilt));
    }
    Ok(Program { classes, root })
}

/// Reads the roots file, and makes the program.
fn read_roots<T: Tree>(
    alloc: Global,
    tree: &mut T,
    roots: &[u8],
    classes: Items<ClassInfo>,
) -> Result<Program, RunFault>
    ensures { Does (roots_run roots.now classes) (T.seen tree.old) (T.seen tree.new) result }
{
    let path = Text::from_slice(alloc, roots)?;
    let file = read_file(alloc, tree, path)?;
    rooted(alloc, classes, &file.bytes)
}

/// Reads the program of a directory and a roots file: the walk, the noted files, and the roots file, in this
/// order. Not built where a class or the roots file is of another form, where a limit is passed, or where a
/// call names no static method that the named class itself declares.
pub fn load<T: Tree>(
    alloc: Global,
    tree: &mut T,
    roots: &[u8],
    dir: &[u8],
) -> Result<Program, RunFault>
    ensures { Does (load_run roots.now dir.now) (T.seen tree.old) (T.seen tree.new) result }
{
    let dir = Text::from_slice(alloc, dir)?;
    let paths = walk_from(alloc, tree, &dir)?;
    let classes = read_classes(alloc, tree, &dir, &paths)?;
    if !has_object(classes.as_slice()) {
        return Err(RunFault::Refused(Refusal::NoObject));
    }
    read_roots(alloc, tree, roots, classes)
}
