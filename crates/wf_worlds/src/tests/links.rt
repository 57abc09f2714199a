//! Call sites, and which methods run there.

ghost use Rattle.std.specs.Prelude.{◌<◌, length, IfSome};

use super::made::closed;
use super::words::{MISSING, of_method};
use std::alloc::Global;
use std::test::Fail;
use wf_base::Items;
use wf_links::{Links, links_of};
use wf_subtype::{Types, types_of};

const LISTING: &[u8] = b"class java/lang/Object
method <init> ()V
return
end
method m ()V
return
end
interface I
method abstract n ()V
class A
method m ()V
return
end
class B extends A implements I
method m ()V
return
end
method n ()V
return
end
class C extends A implements I
method up ()V
aload_0
invokespecial A.m ()V
return
end
method n ()V
return
end
class D extends B
abstract Z extends A
class Main
method static one ()V
new A
dup
invokespecial java/lang/Object.<init> ()V
invokevirtual java/lang/Object.m ()V
aload_0
invokevirtual A.m ()V
aload_0
invokeinterface I.n ()V
return
end
method static two ()V
invokestatic Main.one ()V
aload_0
invokevirtual A.m ()V
aload_0
invokevirtual B.m ()V
aload_0
invokevirtual Z.m ()V
aload_0
invokevirtual Missing.m ()V
aload_0
invokevirtual A.n ()V
return
end
";

/// The types of a listing, and its links.
fn linked(alloc: Global, listing: &[u8]) -> Result<Option<(Types, Links)>, Fail> {
    let Some(classes) = closed(alloc, listing)? else {
        return Ok(None);
    };
    let types = types_of(alloc, classes, &Items::new(alloc))?;
    let links = links_of(alloc, &types)?;
    Ok(Some((types, links)))
}

/// The site of a method, by how many of its sites stand before it.
fn site_of(types: &Types, links: &Links, class: &[u8], name: &[u8], before: u32) -> Option<u32>
    ensures { IfSome result (λ site. site < length links.now.sites) }
{
    let c = types.classes().find(class)?;
    let m = types.classes().find_method(c, name, b"()V")?;
    let first = *links.firsts.as_slice().get(m.0 as usize)?;
    let site = first.checked_add(before)?;
    if site < links.sites() {
        Some(site)
    } else {
        None
    }
}

/// The names of the classes that declare the candidates of a site of a method, in the order of the candidates.
fn candidates_at(
    alloc: Global,
    types: &Types,
    links: &Links,
    class: &[u8],
    name: &[u8],
    before: u32,
) -> Result<Vec<u8>, Fail> {
    let mut text = Vec::new(alloc);
    let Some(site) = site_of(types, links, class, name, before) else {
        text.extend_from_slice(MISSING)?;
        return Ok(text);
    };
    for m in links.candidates(site) {
        if !text.is_empty() {
            text.push(b' ')?;
        }
        text.extend_from_slice(of_method(types.classes(), *m))?;
    }
    Ok(text)
}

/// The table of a site of a method of `Main`.
fn table_of(types: &Types, links: &Links, name: &[u8], before: u32) -> Option<u32> {
    let site = site_of(types, links, b"Main", name, before)?;
    Some(links.sites.as_slice()[site as usize])
}

/// The methods that run for the types under what a site names: for a constructor the one, and none where nothing resolves
/// or no type is there.
#[test]
fn candidates_of_sites(rt: HostRuntime) -> Result<(), Fail> {
    let alloc = rt.alloc();
    let Some((types, links)) = linked(alloc, LISTING)? else {
        assert!(rt; false);
        return Ok(());
    };
    let cases: [(&[u8], &[u8], u32, &[u8]); 11] = [
        (b"C", b"up", 0, b"A"),
        (b"Main", b"one", 0, b"java/lang/Object"),
        (b"Main", b"one", 1, b"A B java/lang/Object"),
        (b"Main", b"one", 2, b"A B"),
        (b"Main", b"one", 3, b"B C"),
        (b"Main", b"two", 0, b"A B"),
        (b"Main", b"two", 1, b"B"),
        (b"Main", b"two", 2, b""),
        (b"Main", b"two", 3, b""),
        (b"Main", b"two", 4, b""),
        (b"Main", b"two", 5, MISSING),
    ];
    assert_eq!(rt; links.sites(), 10);
    for (class, name, before, expected) in cases {
        let found = candidates_at(alloc, &types, &links, class, name, before)?;
        assert!(rt; found.as_slice() == expected);
    }
    Ok(())
}

/// Sites that call alike share a table, and so do those that call nothing.
#[test]
fn shared_tables(rt: HostRuntime) -> Result<(), Fail> {
    let Some((types, links)) = linked(rt.alloc(), LISTING)? else {
        assert!(rt; false);
        return Ok(());
    };
    let twice = table_of(&types, &links, b"one", 2);
    let none = table_of(&types, &links, b"two", 4);
    assert_eq!(rt; table_of(&types, &links, b"two", 0), twice);
    assert_eq!(rt; table_of(&types, &links, b"two", 3), none);
    assert!(rt; table_of(&types, &links, b"one", 1) != twice);
    assert!(rt; table_of(&types, &links, b"two", 1) != twice);
    assert!(rt; twice != none);
    Ok(())
}
