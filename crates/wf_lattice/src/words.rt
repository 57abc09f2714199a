//! Loops over words, each with one contract.

ghost use Rattle.std.specs.Prelude.{◌≡◌, ◌+◌, ◌<◌, ◌≤◌, ◌&&◌, IsTrue, false, length, nat_lt, count_ones};
ghost use Rattle.wf_lattice.specs.Words.{words_of, has_bit, is_empty, counted, types_of, both, JoinsRow, JoinsBetween, JoinsSome, AreZero};
ghost use Rattle.wf_lattice.specs.Order.{is_saturated};
ghost use Rattle.wf_lattice.specs.Meaning.{types_if};

/// How many bits of a word are set.
fn ones(word: u64) -> u64
    ensures exact { result ≡ count_ones word }
    ensures few { result ≤ 64 }
{
    word.count_ones() as u64
}

/// Whether the bit is set.
pub(crate) fn bit(words: &[u64], b: usize) -> bool
    ensures { result ≡ has_bit (words_of words.now) b }
{
    match words.get(b / 64) {
        Some(word) => (*word >> (b % 64)) & 1 == 1,
        None => false,
    }
}

/// Whether null is in a set, where it is kept.
pub(crate) fn kept_null(keep: bool, words: &[u64]) -> bool
    ensures { result ≡ (keep && has_bit (words_of words.now) 1) }
{
    keep && bit(words, 1)
}

/// Whether no bit is set.
pub(crate) fn none_set(words: &[u64]) -> bool
    ensures { result ≡ is_empty (length words.now) (words_of words.now) }
{
    for word in words {
        if *word != 0 {
            return false;
        }
    }
    true
}

/// Whether the eight words from a place on are 0.
fn are_zero(words: &[u64], k: usize) -> bool
    requires { k + 8 ≤ length words.now }
    ensures { IsTrue result → AreZero (words_of words.now) k }
{
    let low = words[k] | words[k + 1] | words[k + 2] | words[k + 3];
    let high = words[k + 4] | words[k + 5] | words[k + 6] | words[k + 7];
    low | high == 0
}

/// How many bits of the eight words from a place on are set.
fn ones_of_eight(words: &[u64], k: usize) -> u64
    requires behind_flags { 1 ≤ k }
    requires inside { k + 8 ≤ length words.now }
    ensures counts { counted (k + 8) (types_of (words_of words.now)) ≡ counted k (types_of (words_of words.now)) + result }
    ensures few { result ≤ 512 }
{
    let low = ones(words[k]) + ones(words[k + 1]) + ones(words[k + 2]) + ones(words[k + 3]);
    low + ones(words[k + 4]) + ones(words[k + 5]) + ones(words[k + 6]) + ones(words[k + 7])
}

/// Whether more than `most` types are set, where `count` are set in front of a place: word by word.
fn has_more_from(words: &[u64], k: usize, count: u64, most: u32) -> bool
    requires behind_flags { 1 ≤ k }
    requires inside { k ≤ length words.now }
    requires counted { count ≡ counted k (types_of (words_of words.now)) }
    ensures { result ≡ nat_lt most (counted (length words.now) (types_of (words_of words.now))) }
{
    let mut count = count;
    for i in k..words.len() {
        if count > most as u64 {
            return true;
        }
        count += ones(words[i]);
    }
    count > most as u64
}

/// Whether more types than `most` are set beside null. Counting stops above `most`. Most words of a set are 0, and eight
/// of them are found so at once.
pub(crate) fn has_more_types(words: &[u64], most: u32) -> bool
    ensures { result ≡ nat_lt most (counted (length words.now) (types_of (words_of words.now))) }
{
    if words.is_empty() {
        return false;
    }
    let mut count = ones(words[0] & !3);
    let mut k = 1;
    while k + 8 <= words.len() {
        if !are_zero(words, k) {
            count += ones_of_eight(words, k);
            if count > most as u64 {
                return true;
            }
        }
        k += 8;
    }
    has_more_from(words, k, count, most)
}

/// Whether more types than `most` are in both rows. Counting stops above `most`.
pub(crate) fn has_more_of_both(inst: &[u64], mask: &[u64], most: u32) -> bool
    requires some { 0 < length mask.now }
    requires inst_length { length inst.now ≡ length mask.now }
    ensures { result ≡ nat_lt most (counted (length mask.now) (both (types_of (words_of inst.now)) (words_of mask.now))) }
{
    let mut count = ones(inst[0] & !3 & mask[0]);
    for k in 1..mask.len() {
        if count > most as u64 {
            return true;
        }
        count += ones(inst[k] & mask[k]);
    }
    count > most as u64
}

/// Joins the types that are in both rows.
pub(crate) fn join_both(inst: &[u64], mask: &[u64], into: &mut [u64])
    requires some { 0 < length mask.now }
    requires inst_length { length inst.now ≡ length mask.now }
    requires into_length { length into.old ≡ length mask.now }
    ensures { JoinsRow (both (types_of (words_of inst.now)) (words_of mask.now)) into.old into.new }
{
    into[0] |= inst[0] & !3 & mask[0];
    for k in 1..mask.len() {
        into[k] |= inst[k] & mask[k];
    }
}

/// Joins the types of a set that are made and in the mask, of the words between two places.
fn join_between(value: &[u64], inst: &[u64], mask: &[u64], from: usize, to: usize, into: &mut [u64])
    requires behind_flags { 1 ≤ from }
    requires order { from ≤ to }
    requires inside { to ≤ length mask.now }
    requires value_length { length value.now ≡ length mask.now }
    requires inst_length { length inst.now ≡ length mask.now }
    requires into_length { length into.old ≡ length mask.now }
    ensures { JoinsBetween (both (types_if false (words_of value.now) (words_of inst.now)) (words_of mask.now)) from to into.old into.new }
{
    for k in from..to {
        into[k] |= value[k] & inst[k] & mask[k];
    }
}

/// Joins the types of a value that are made and in the mask, and says whether the value is saturated. Where it is, only
/// some of them may be joined: counting and joining are one pass, which stops above `most`. Eight words at once are
/// passed over that are 0.
pub(crate) fn join_counted(
    value: &[u64],
    inst: &[u64],
    mask: &[u64],
    most: u32,
    into: &mut [u64],
) -> bool
    requires some { 0 < length mask.now }
    requires value_length { length value.now ≡ length mask.now }
    requires inst_length { length inst.now ≡ length mask.now }
    requires into_length { length into.old ≡ length mask.now }
    ensures saturated { result ≡ is_saturated most (length mask.now) (words_of value.now) }
    ensures joined { result ≡ false → JoinsRow (both (types_if false (words_of value.now) (words_of inst.now)) (words_of mask.now)) into.old into.new }
    ensures some_joined { JoinsSome (both (types_of (words_of inst.now)) (words_of mask.now)) into.old into.new }
{
    if bit(value, 0) {
        return true;
    }
    into[0] |= value[0] & inst[0] & !3 & mask[0];
    let mut count = ones(value[0] & !3);
    let mut k = 1;
    while k + 8 <= mask.len() {
        if !are_zero(value, k) {
            join_between(value, inst, mask, k, k + 8, into);
            count += ones_of_eight(value, k);
            if count > most as u64 {
                return true;
            }
        }
        k += 8;
    }
    join_between(value, inst, mask, k, mask.len(), into);
    has_more_from(value, k, count, most)
}
