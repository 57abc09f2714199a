ghost use Rattle.std.specs.Prelude.{◌≡◌, ◌++◌, ◌<◌, List, Some, not, nat_lt, codes, count_by, length, IfOk, IfErr};
ghost use Rattle.std.specs.Str.{bytes_eq};
ghost use Rattle.wf_sys.specs.Names.{method_name};
ghost use Rattle.wf_names.specs.Members.{named_by};
ghost use Rattle.wf_names.specs.NameForm.{member_of};
ghost use Rattle.wf_first.specs.Roots.{has_object, only_line, root_line, root_among, root_in, is_concrete, methods_in, is_within_limits};

use crate::limits::{MAX_METHODS, MAX_TYPES};
use crate::member_text::is_member_text;
use crate::nodes::has_few_nodes;
use std::alloc::{AllocError, Global};
use wf_base::Items;
use wf_data::{ClassInfo, MethodInfo, is_static};
use wf_names::{MemberName, MemberRef};

/// The classes of a program, and the static method that is its root.
#[derive(Debug, Drop)]
pub struct Program {
    pub classes: Items<ClassInfo>,
    pub root: MemberName,
}

/// Whether `java/lang/Object` is among the classes.
pub fn has_object(classes: &[ClassInfo]) -> bool
    ensures { result ≡ has_object classes.now }
{
    classes.iter().any(|class| class.name.as_slice() == b"java/lang/Object".as_slice())
}

/// The one line of a text, without its end.
pub fn only_line(bytes: &[u8]) -> &[u8]
    ensures { result.now ≡ only_line bytes.now }
{
    if bytes.ends_with(b"\r\n") {
        return &bytes[..bytes.len() - 2];
    }
    if bytes.ends_with(b"\n") {
        return &bytes[..bytes.len() - 1];
    }
    bytes
}

/// Whether the line makes this method a root.
fn is_root_line(line: &[u8], class: &[u8], name: &[u8], desc: &[u8]) -> bool
    ensures { result ≡ bytes_eq line.now (root_line (member_of class.now name.now desc.now)) }
{
    match line.strip_prefix(b"static ") {
        Some(member) => is_member_text(member, class, name, desc),
        None => false,
    }
}

/// The name of a method, borrowed.
pub fn method_ref<'p>(class: &'p ClassInfo, method: &'p MethodInfo) -> MemberRef<'p>
    ensures { named_by result ≡ method_name class.now method.now }
{
    MemberRef {
        class: class.name.as_slice(),
        name: method.name.as_slice(),
        desc: method.desc.as_slice(),
    }
}

/// The static method of a class that the line names.
fn root_among(
    alloc: Global,
    class: &ClassInfo,
    line: &[u8],
) -> Result<Option<MemberName>, AllocError>
    ensures { IfOk result (λ root. root ≡ root_among class.now class.now.methods line.now) }
{
    for method in class.methods.as_slice() {
        let named = is_root_line(
            line,
            class.name.as_slice(),
            method.name.as_slice(),
            method.desc.as_slice(),
        );
        if is_static(method.flags) && named {
            return Ok(Some(method_ref(class, method).to_name(alloc)?));
        }
    }
    Ok(None)
}

/// The static method that the line names.
pub fn root_in(
    alloc: Global,
    classes: &[ClassInfo],
    line: &[u8],
) -> Result<Option<MemberName>, AllocError>
    ensures { IfOk result (λ root. root ≡ root_in classes.now line.now) }
{
    for class in classes {
        if let Some(root) = root_among(alloc, class, line)? {
            return Ok(Some(root));
        }
    }
    Ok(None)
}

/// Whether objects of the class can be made.
fn is_concrete(class: &ClassInfo) -> bool
    ensures { result ≡ is_concrete class.now }
{
    class.flags & 0x0400 == 0
}

fn has_few_types(classes: &[ClassInfo]) -> bool
    ensures { result ≡ not (nat_lt MAX_TYPES (count_by is_concrete classes.now)) }
{
    classes.iter().filter(|class| is_concrete(class)).count() <= MAX_TYPES
}

fn has_few_methods(classes: &[ClassInfo]) -> bool
    ensures { result ≡ not (nat_lt MAX_METHODS (methods_in classes.now)) }
{
    let mut methods = 0;
    for class in classes {
        let more = class.methods.len();
        if more > MAX_METHODS - methods {
            return false;
        }
        methods += more;
    }
    true
}

/// Whether the program passes no limit. Its fields and value words can't be too many in this form.
pub fn is_within_limits(alloc: Global, classes: &[ClassInfo]) -> Result<bool, AllocError>
    ensures { IfOk result (λ within. within ≡ is_within_limits classes.now) }
{
    if !has_few_types(classes) || !has_few_methods(classes) {
        return Ok(false);
    }
    has_few_nodes(alloc, classes)
}
