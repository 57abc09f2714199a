//! The items of a class file (JVMS 4). Each is there whole, or else `cut` at its first byte.

ghost use Rattle.std.specs.Prelude.{◌≡◌};
ghost use Rattle.std.specs.Int.{w8, w16, w32, w64};
ghost use Rattle.wf_bytes.specs.Reading.{number, run};
ghost use Rattle.wf_constpool.specs.Readers.{Gives, GivesAs};

use crate::fault::ClassFault;
use std::alloc::Global;
use wf_base::Text;
use wf_bytes::{Cursor, Why};

/// The fault of the item at the cursor.
fn bad(cursor: &Cursor<'_>, why: Why) -> ClassFault
    ensures { result ≡ ClassFault.Bad cursor.now.at why }
{
    ClassFault::Bad {
        offset: cursor.at(),
        why,
    }
}

/// One byte.
#[tactic(auto, unfolding(wf_bytes::specs::Reading::number))]
pub fn u1(cursor: &mut Cursor<'_>) -> Result<u8, ClassFault>
    ensures { Gives cursor.new result (number w8 cursor.old) }
{
    match cursor.u1() {
        Some(number) => Ok(number),
        None => Err(bad(cursor, Why::Cut)),
    }
}

/// Two bytes, the higher first.
#[tactic(auto, unfolding(wf_bytes::specs::Reading::number))]
pub fn u2(cursor: &mut Cursor<'_>) -> Result<u16, ClassFault>
    ensures { Gives cursor.new result (number w16 cursor.old) }
{
    match cursor.u2() {
        Some(number) => Ok(number),
        None => Err(bad(cursor, Why::Cut)),
    }
}

/// Four bytes, the highest first.
#[tactic(auto, unfolding(wf_bytes::specs::Reading::number))]
pub fn u4(cursor: &mut Cursor<'_>) -> Result<u32, ClassFault>
    ensures { Gives cursor.new result (number w32 cursor.old) }
{
    match cursor.u4() {
        Some(number) => Ok(number),
        None => Err(bad(cursor, Why::Cut)),
    }
}

/// Eight bytes, the highest first.
#[tactic(auto, unfolding(wf_bytes::specs::Reading::number))]
pub fn u8(cursor: &mut Cursor<'_>) -> Result<u64, ClassFault>
    ensures { Gives cursor.new result (number w64 cursor.old) }
{
    match cursor.u8() {
        Some(number) => Ok(number),
        None => Err(bad(cursor, Why::Cut)),
    }
}

/// The next n bytes, where they are.
#[tactic(auto, unfolding(wf_bytes::specs::Reading::run))]
pub fn run<'a>(cursor: &mut Cursor<'a>, n: u32) -> Result<&'a [u8], ClassFault>
    ensures { GivesAs (λ bytes. bytes.now) cursor.new result (run n cursor.old) }
{
    match cursor.take(n) {
        Some(bytes) => Ok(bytes),
        None => Err(bad(cursor, Why::Cut)),
    }
}

/// The next n bytes as a text, which is a part of the file.
#[tactic(auto, unfolding(wf_bytes::specs::Reading::run))]
pub fn text(alloc: Global, cursor: &mut Cursor<'_>, n: u32) -> Result<Text, ClassFault>
    ensures { Gives cursor.new result (run n cursor.old) }
{
    match cursor.text(alloc, n)? {
        Some(text) => Ok(text),
        None => Err(bad(cursor, Why::Cut)),
    }
}
