ghost use Rattle.std.specs.Prelude.{◌≡◌, ◌<◌, ◌&&◌, length};
ghost use Rattle.wf_lattice.specs.Words.{words_of, flags_of, JoinsRow};
ghost use Rattle.wf_lattice.specs.Filters.{set_words, masked_types, filtered};
ghost use Rattle.wf_lattice.specs.Meaning.{means_null};
ghost use Rattle.wf_lattice.specs.Order.{is_saturated};

use crate::view::{Nulls, RefView};
use crate::words;

/// Joins into `into` the types of v's meaning that are in the mask, and null by `nulls`: kept, dropped, or
/// alone, where the mask counts as empty. A result with more types than v's threshold sets the bit that
/// says saturated. Bits 0 and 1 of the mask and of `inst` are not looked at.
pub fn filtered(v: RefView, inst: RefView, mask: &[u64], nulls: Nulls, into: &mut [u64])
    requires some { 0 < length mask.now }
    requires value_length { length v.words.now ≡ length mask.now }
    requires inst_length { length inst.words.now ≡ length mask.now }
    requires into_length { length into.old ≡ length mask.now }
    ensures { JoinsRow (filtered v.entry.threshold (length mask.now) (words_of v.entry.words.now) (words_of inst.entry.words.now) (words_of mask.now) nulls) into.old into.new }
{
    match nulls {
        Nulls::Keep => join_set(v, inst.words, mask, true, into),
        Nulls::Drop => join_set(v, inst.words, mask, false, into),
        Nulls::Only => join_flags(false, v.means_null(), into),
    }
}

/// Joins the types of the meaning in the mask, null of the meaning where it is kept, and the bit that says saturated
/// where there are more types than the threshold. A part of a set that isn't saturated has no more of them.
fn join_set(v: RefView, inst: &[u64], mask: &[u64], keep: bool, into: &mut [u64])
    requires some { 0 < length mask.now }
    requires value_length { length v.words.now ≡ length mask.now }
    requires inst_length { length inst.now ≡ length mask.now }
    requires into_length { length into.old ≡ length mask.now }
    ensures { JoinsRow (set_words v.entry.threshold (length mask.now) (masked_types v.entry.threshold (length mask.now) (words_of v.entry.words.now) (words_of inst.now) (words_of mask.now)) (keep && means_null v.entry.threshold (length mask.now) (words_of v.entry.words.now))) into.old into.new }
{
    if words::join_counted(v.words, inst, mask, v.threshold, into) {
        words::join_both(inst, mask, into);
        join_flags(words::has_more_of_both(inst, mask, v.threshold), keep, into);
    } else {
        join_flags(false, words::kept_null(keep, v.words), into);
    }
}

/// Joins the bits that say saturated and null.
fn join_flags(saturated: bool, null: bool, into: &mut [u64])
    requires { 0 < length into.old }
    ensures { JoinsRow (flags_of saturated null) into.old into.new }
{
    into[0] |= saturated as u64 + 2 * (null as u64);
}
