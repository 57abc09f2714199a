//! Sets of heights of classes: height h is bit h % 64 of word h / 64.

ghost use Rattle.std.specs.Prelude.{◌≡◌, ℕ, ◌+◌, ◌-◌, ◌*◌, ◌/◌, ◌%◌, ◌<◌, ◌≤◌, ◌↔◌, IsTrue, Some, length, slice_get, slice_index};
ghost use Rattle.wf_base.specs.declared.ids.ClassId.{ClassId};
ghost use Rattle.wf_classes.specs.Above.{Has, Adds, IsHeightAmong, IsCutBelow, IsLastOf, IsLastSetIn};

use wf_base::ClassId;

/// Whether a height is in the set.
pub fn has(bits: &[u64], h: u32) -> bool
    requires { h / 64 < length bits.now }
    ensures { IsTrue result ↔ Has bits.now h }
{
    (bits[(h / 64) as usize] >> (h % 64)) & 1 == 1
}

/// Adds a height.
pub fn add(bits: &mut [u64], h: u32)
    requires { h / 64 < length bits.old }
    ensures { Adds bits.old bits.new (λ g. g ≡ h) }
{
    bits[(h / 64) as usize] |= 1 << (h % 64);
}

/// Adds the heights of some classes.
pub fn add_all(bits: &mut [u64], heights: &[u32], ids: &[ClassId])
    requires inside { (i : ℕ) (c : ClassId) → slice_get ids.now i ≡ Some c → c.0 < length heights.now }
    requires room { (c : ℕ) → c < length heights.now → slice_index heights.now c / 64 < length bits.old }
    ensures { Adds bits.old bits.new (IsHeightAmong heights.now ids.now (length ids.now)) }
{
    for c in ids {
        add(bits, heights[c.0 as usize]);
    }
}

/// The last bit of a word that is set.
fn last_bit(word: u64) -> Option<u32>
    ensures { IsLastOf word result }
{
    if word == 0 { None } else { Some(word.ilog2()) }
}

/// The bits of a word that are below one.
fn cut_below(word: u64, bound: u32) -> u64
    requires { bound < 64 }
    ensures { IsCutBelow word bound result }
{
    word & ((1 << bound) - 1)
}

/// The greatest height of the set that stands in the word of a bound, below it.
fn last_beside(bits: &[u64], bound: u32) -> Option<u32>
    requires { bound ≤ 64 * length bits.now }
    ensures { IsLastSetIn bits.now (64 * (bound / 64)) bound result }
{
    let rest = bound % 64;
    if rest == 0 {
        return None;
    }
    let b = last_bit(cut_below(bits[(bound / 64) as usize], rest))?;
    Some(bound - rest + b)
}

/// The greatest height of the set that stands in its first words.
fn last_among(bits: &[u64], words: usize) -> Option<u32>
    requires few { words ≤ 1024 }
    requires inside { words ≤ length bits.now }
    ensures { IsLastSetIn bits.now 0 (64 * words) result }
{
    for k in (0..words).rev() {
        if let Some(b) = last_bit(bits[k]) {
            return Some(64 * k as u32 + b);
        }
    }
    None
}

/// The greatest height of the set below a bound.
pub fn last_below(bits: &[u64], bound: u32) -> Option<u32>
    requires few { length bits.now ≤ 1024 }
    requires inside { bound ≤ 64 * length bits.now }
    ensures { IsLastSetIn bits.now 0 bound result }
{
    match last_beside(bits, bound) {
        Some(h) => Some(h),
        None => last_among(bits, (bound / 64) as usize),
    }
}
