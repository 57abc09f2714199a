//! Numbers and bytes (JVMS 4).

ghost use Rattle.std.specs.Prelude.{◌≡◌};
ghost use Rattle.std.specs.Int.{w8, w16, w32, w64};
ghost use Rattle.wf_grammar.specs.Writing.{put, put_number, put_signed};
ghost use Rattle.wf_classfile.specs.Writers.{Writes};

use crate::fault::SpellFault;

/// One byte.
#[tactic(auto, unfolding(wf_grammar::specs::Writing::put_number))]
pub fn put_u1(out: &mut Vec<u8>, number: u8) -> Result<(), SpellFault>
    ensures { Writes out.new.items result (put_number w8 number out.old.items) }
{
    out.extend_from_slice(&number.to_be_bytes())?;
    Ok(())
}

/// Two bytes, the higher first.
#[tactic(auto, unfolding(wf_grammar::specs::Writing::put_number))]
pub fn put_u2(out: &mut Vec<u8>, number: u16) -> Result<(), SpellFault>
    ensures { Writes out.new.items result (put_number w16 number out.old.items) }
{
    out.extend_from_slice(&number.to_be_bytes())?;
    Ok(())
}

/// Four bytes, the highest first.
#[tactic(auto, unfolding(wf_grammar::specs::Writing::put_number))]
pub fn put_u4(out: &mut Vec<u8>, number: u32) -> Result<(), SpellFault>
    ensures { Writes out.new.items result (put_number w32 number out.old.items) }
{
    out.extend_from_slice(&number.to_be_bytes())?;
    Ok(())
}

/// Eight bytes, the highest first.
#[tactic(auto, unfolding(wf_grammar::specs::Writing::put_number))]
pub fn put_u8(out: &mut Vec<u8>, number: u64) -> Result<(), SpellFault>
    ensures { Writes out.new.items result (put_number w64 number out.old.items) }
{
    out.extend_from_slice(&number.to_be_bytes())?;
    Ok(())
}

/// A signed number of four bytes.
#[tactic(auto, unfolding(wf_grammar::specs::Writing::put_signed))]
pub fn put_i4(out: &mut Vec<u8>, number: i32) -> Result<(), SpellFault>
    ensures { Writes out.new.items result (put_signed w32 number out.old.items) }
{
    put_u4(out, number.cast_unsigned())
}

/// A signed number of eight bytes.
#[tactic(auto, unfolding(wf_grammar::specs::Writing::put_signed))]
pub fn put_i8(out: &mut Vec<u8>, number: i64) -> Result<(), SpellFault>
    ensures { Writes out.new.items result (put_signed w64 number out.old.items) }
{
    put_u8(out, number.cast_unsigned())
}

/// A count of two bytes, where it has room.
#[tactic(auto, unfolding(wf_grammar::specs::Writing::put_number))]
pub fn put_count(out: &mut Vec<u8>, count: usize) -> Result<(), SpellFault>
    ensures { Writes out.new.items result (put_number w16 count out.old.items) }
{
    match u16::try_from(count) {
        Ok(number) => put_u2(out, number),
        Err(_) => Err(SpellFault::NotSpellable),
    }
}

/// A length of four bytes, where it has room.
#[tactic(auto, unfolding(wf_grammar::specs::Writing::put_number))]
pub fn put_length(out: &mut Vec<u8>, length: usize) -> Result<(), SpellFault>
    ensures { Writes out.new.items result (put_number w32 length out.old.items) }
{
    match u32::try_from(length) {
        Ok(number) => put_u4(out, number),
        Err(_) => Err(SpellFault::NotSpellable),
    }
}

/// Bytes, as they stand.
pub fn put(out: &mut Vec<u8>, bytes: &[u8]) -> Result<(), SpellFault>
    ensures { Writes out.new.items result (put bytes.now out.old.items) }
{
    out.extend_from_slice(bytes)?;
    Ok(())
}
