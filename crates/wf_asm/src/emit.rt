//! The bytes of instructions, put behind those of a code.

ghost use Rattle.std.specs.Prelude.{◌≡◌, ◌≤◌, ◌++◌, [], ◌∷◌, nat_le, length, OnOk, if◌then◌else◌};
ghost use Rattle.std.specs.Int.{w16, w32};
ghost use Rattle.wf_opcode.specs.Instructions.{padding};
ghost use Rattle.wf_asm.specs.Building.{case_bytes, distance, distance_bytes, four_bytes, high_of, joined, keys_bytes, lookup_bytes, onto, place_bytes, signed_bytes, step_bytes, switch_bytes, table_bytes, zeros};
ghost use Rattle.wf_asm.specs.Constants.{place_of};
ghost use Rattle.wf_asm.specs.Putting.{Puts};

use crate::labels::{Labels, padding};
use crate::pool::Pool;
use std::alloc::AllocError;
use wf_base::Text;
use wf_listing::{Constant, ListedCase, ListedLookup, ListedTable, Step, Stop, Use};

/// How far a label is from a place.
fn distance(labels: &Labels<'_>, at: usize, name: &Text) -> Option<i128>
    ensures { result ≡ distance labels.now at name.now }
{
    let to = labels.place(name.as_slice())?;
    Some(to as i128 - at as i128)
}

/// Puts a signed number in two bytes, where it has room.
#[tactic(auto, using(crate::proofs::PuttingLaws::puts), unfolding(crate::specs::Building::signed_bytes))]
fn put_two_signed(number: i128, out: &mut Text) -> Result<(), Stop>
    ensures { Puts result out.new (onto out.old (signed_bytes w16 number)) }
{
    let Ok(number) = i16::try_from(number) else {
        return Err(Stop::NotOfForm);
    };
    out.push_slice(&number.to_be_bytes())?;
    Ok(())
}

/// Puts a signed number in four bytes, where it has room.
#[tactic(auto, using(crate::proofs::PuttingLaws::puts), unfolding(crate::specs::Building::signed_bytes))]
fn put_four_signed(number: i128, out: &mut Text) -> Result<(), Stop>
    ensures { Puts result out.new (onto out.old (signed_bytes w32 number)) }
{
    let Ok(number) = i32::try_from(number) else {
        return Err(Stop::NotOfForm);
    };
    out.push_slice(&number.to_be_bytes())?;
    Ok(())
}

/// Puts a number in four bytes, where it has room.
#[tactic(auto, using(crate::proofs::PuttingLaws::puts))]
fn put_four(number: usize, out: &mut Text) -> Result<(), Stop>
    ensures { Puts result out.new (onto out.old (four_bytes number)) }
{
    let Ok(number) = u32::try_from(number) else {
        return Err(Stop::NotOfForm);
    };
    out.push_slice(&number.to_be_bytes())?;
    Ok(())
}

/// Puts how far a label is, in two bytes.
#[tactic(auto, using(crate::proofs::PuttingLaws::puts))]
fn put_near(labels: &Labels<'_>, at: usize, name: &Text, out: &mut Text) -> Result<(), Stop>
    ensures { Puts result out.new (onto out.old (distance_bytes w16 labels.now at name.now)) }
{
    let Some(far) = distance(labels, at, name) else {
        return Err(Stop::NotOfForm);
    };
    put_two_signed(far, out)
}

/// Puts how far a label is, in four bytes.
#[tactic(auto, using(crate::proofs::PuttingLaws::puts))]
fn put_far(labels: &Labels<'_>, at: usize, name: &Text, out: &mut Text) -> Result<(), Stop>
    ensures { Puts result out.new (onto out.old (distance_bytes w32 labels.now at name.now)) }
{
    let Some(far) = distance(labels, at, name) else {
        return Err(Stop::NotOfForm);
    };
    put_four_signed(far, out)
}

/// Puts the opcode of a switch, and zeros up to the next multiple of four.
#[tactic(auto, unfolding(crate::specs::Building::zeros))]
fn put_switch(op: u8, at: usize, out: &mut Text) -> Result<(), AllocError>
    ensures { OnOk result (out.new ≡ out.old ++ op ∷ zeros (padding at)) }
{
    let zeros: &[u8] = match padding(at) {
        0 => &[],
        1 => &[0],
        2 => &[0, 0],
        _ => &[0, 0, 0],
    };
    out.push_slice(&[op])?;
    out.push_slice(zeros)
}

/// The greatest key of a table.
#[tactic(auto, unfolding(crate::specs::Building::high_of))]
fn high_of(table: &ListedTable) -> i128
    ensures { result ≡ high_of table.now }
{
    i128::from(table.low) + table.targets.len() as i128 - 1
}

/// Puts the least and the greatest key of a table.
#[tactic(auto, using(crate::proofs::PuttingLaws::puts))]
fn put_keys(table: &ListedTable, out: &mut Text) -> Result<(), Stop>
    ensures { Puts result out.new (onto out.old (keys_bytes table.now)) }
{
    put_four_signed(i128::from(table.low), out)?;
    put_four_signed(high_of(table), out)
}

/// Puts how far each label of a table is.
#[tactic(auto, using(crate::proofs::PuttingLaws::targets))]
fn put_targets(labels: &Labels<'_>, at: usize, targets: &[Text], out: &mut Text) -> Result<(), Stop>
    ensures { Puts result out.new (onto out.old (table_bytes labels.now at targets.now)) }
{
    for target in targets {
        put_far(labels, at, target, out)?;
    }
    Ok(())
}

#[tactic(auto, using(crate::proofs::PuttingLaws::puts))]
fn put_table(
    labels: &Labels<'_>,
    at: usize,
    table: &ListedTable,
    out: &mut Text,
) -> Result<(), Stop>
    ensures { Puts result out.new (onto out.old (switch_bytes 0xAA labels.now at table.now.default (joined (keys_bytes table.now) (table_bytes labels.now at table.now.targets)))) }
{
    put_switch(0xAA, at, out)?;
    put_far(labels, at, &table.default, out)?;
    put_keys(table, out)?;
    put_targets(labels, at, table.targets.as_slice(), out)
}

#[tactic(auto, using(crate::proofs::PuttingLaws::puts))]
fn put_case(labels: &Labels<'_>, at: usize, case: &ListedCase, out: &mut Text) -> Result<(), Stop>
    ensures { Puts result out.new (onto out.old (case_bytes labels.now at case.now)) }
{
    out.push_slice(&case.key.to_be_bytes())?;
    put_far(labels, at, &case.target, out)
}

/// Puts the pairs of a look-up.
#[tactic(auto, using(crate::proofs::PuttingLaws::cases))]
fn put_cases(
    labels: &Labels<'_>,
    at: usize,
    cases: &[ListedCase],
    out: &mut Text,
) -> Result<(), Stop>
    ensures { Puts result out.new (onto out.old (lookup_bytes labels.now at cases.now)) }
{
    for case in cases {
        put_case(labels, at, case, out)?;
    }
    Ok(())
}

#[tactic(auto, using(crate::proofs::PuttingLaws::puts))]
fn put_lookup(
    labels: &Labels<'_>,
    at: usize,
    lookup: &ListedLookup,
    out: &mut Text,
) -> Result<(), Stop>
    ensures { Puts result out.new (onto out.old (switch_bytes 0xAB labels.now at lookup.now.default (joined (four_bytes (length lookup.now.cases)) (lookup_bytes labels.now at lookup.now.cases)))) }
{
    put_switch(0xAB, at, out)?;
    put_far(labels, at, &lookup.default, out)?;
    put_four(lookup.cases.len(), out)?;
    put_cases(labels, at, lookup.cases.as_slice(), out)
}

/// Puts an opcode and the place of a constant in two bytes.
fn put_place(pool: &Pool, op: u8, constant: &Constant, out: &mut Text) -> Result<(), AllocError>
    requires { length pool.now ≤ 65534 }
    ensures { OnOk result (out.new ≡ out.old ++ op ∷ place_bytes pool.now constant.now) }
{
    out.push_slice(&[op])?;
    out.push_slice(&pool.place(constant).to_be_bytes())
}

#[tactic(auto, using(std::proofs::lemmas::List::append_assoc))]
fn put_use(pool: &Pool, used: &Use, out: &mut Text) -> Result<(), AllocError>
    requires { length pool.now ≤ 65534 }
    ensures { OnOk result (out.new ≡ out.old ++ (used.now.op ∷ [] ++ place_bytes pool.now used.now.constant ++ used.now.rest)) }
{
    put_place(pool, used.op, &used.constant, out)?;
    out.push_slice(used.rest.as_slice())
}

/// Puts an `ldc`, with one byte for the place where that is enough.
fn put_load(pool: &Pool, constant: &Constant, out: &mut Text) -> Result<(), AllocError>
    requires { length pool.now ≤ 65534 }
    ensures { OnOk result (out.new ≡ out.old ++ (if nat_le (place_of pool.now constant.now) 255 then 0x12 ∷ place_of pool.now constant.now ∷ [] else 0x13 ∷ [] ++ place_bytes pool.now constant.now)) }
{
    match u8::try_from(pool.place(constant)) {
        Ok(place) => out.push_slice(&[0x12, place]),
        Err(_) => put_place(pool, 0x13, constant, out),
    }
}

/// Puts the bytes of the instruction that begins at a place.
#[tactic(auto, using(crate::proofs::PuttingLaws::puts), unfolding(crate::specs::Building::step_bytes))]
pub fn put_step(
    pool: &Pool,
    labels: &Labels<'_>,
    at: usize,
    step: &Step,
    out: &mut Text,
) -> Result<(), Stop>
    requires { length pool.now ≤ 65534 }
    ensures { Puts result out.new (onto out.old (step_bytes pool.now labels.now at step.now)) }
{
    match step {
        Step::Fixed(bytes) => Ok(out.push_slice(bytes.as_slice())?),
        Step::Jump(op, label) => {
            out.push_slice(&[*op])?;
            put_near(labels, at, label, out)
        }
        Step::FarJump(op, label) => {
            out.push_slice(&[*op])?;
            put_far(labels, at, label, out)
        }
        Step::Table(table) => put_table(labels, at, table, out),
        Step::Lookup(lookup) => put_lookup(labels, at, lookup, out),
        Step::Use(used) => Ok(put_use(pool, used, out)?),
        Step::Load(constant) => Ok(put_load(pool, constant, out)?),
    }
}
