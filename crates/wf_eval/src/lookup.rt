ghost use Rattle.std.specs.Prelude.{◌≡◌, ◌+◌, ◌-◌, ◌*◌, ◌<◌, ◌≤◌, ◌^◌, ◌||◌, ◌==◌, if◌then◌else◌, length, not, nat_lt};
ghost use Rattle.std.specs.Int.{bit_at};
ghost use Rattle.wf_lattice.specs.Words.{words_of, has_bit, is_empty, counted, types_of};
ghost use Rattle.wf_lattice.specs.Order.{is_saturated};
ghost use Rattle.wf_system.specs.Sides.{pick_of, table_of};
ghost use Rattle.wf_system.specs.System.{is_candidate};
ghost use Rattle.wf_system.specs.Shapes.{IsLaidOut, all_words};
ghost use Rattle.wf_eval.specs.Said.{Seen, SaidWord, SaidBool};
ghost use Rattle.wf_eval.specs.Reading.{span_row, IsInside};
ghost use Rattle.wf_eval.specs.Plans.{meant_row, source_row, source_words, picking_row, masked, set_row, has_meaning, MeaningFits, SourceFits, MaskFits, SetFits};

use crate::plan::{Mask, Meaning, Source, TypeSet};
use crate::words::Words;
use wf_system::{NodeShape, Shape, Side};

/// What an evaluation looks up: the places of nodes, the side table, and the threshold.
#[derive(Clone, Copy)]
pub struct Lookup<'a> {
    pub shape: &'a Shape,
    pub side: &'a Side,
    pub most: u32,
    ghost laid: { IsLaidOut shape.now },
}

impl<'a> Lookup<'a> {
    /// What is looked up in a system.
    pub fn new(shape: &'a Shape, side: &'a Side, threshold: u32) -> Lookup<'a>
        ensures shape { result.shape.now ≡ shape.now }
        ensures side { result.side.now ≡ side.now }
        ensures most { result.most ≡ threshold }
    {
        let _nodes = shape.nodes();
        Lookup {
            shape,
            side,
            most: threshold,
        }
    }
}

impl Lookup<'_> {
    /// A word of a node.
    pub(crate) fn word_of<W: Words>(&self, words: &mut W, at: NodeShape, k: u32) -> u64
        requires all { (W.seen words.old).count ≡ all_words self.now.shape.now }
        requires place { IsInside self.now.shape.now at }
        requires inside { k < at.words }
        ensures { SaidWord (λ x. span_row x at k) (W.seen words.old) (W.seen words.new) result }
    {
        words.word(at.first_word + k)
    }

    /// Whether a bit of a node is set.
    pub(crate) fn bit_of<W: Words>(&self, words: &mut W, at: NodeShape, b: u64) -> bool
        requires all { (W.seen words.old).count ≡ all_words self.now.shape.now }
        requires place { IsInside self.now.shape.now at }
        requires inside { b < 64 * at.words }
        ensures { SaidBool (λ x. has_bit (span_row x at) b) (W.seen words.old) (W.seen words.new) result }
    {
        let word = self.word_of(words, at, (b / 64) as u32);
        bit(word, (b % 64) as u32)
    }

    /// Whether some bit of a node is set.
    pub(crate) fn any_of<W: Words>(&self, words: &mut W, at: NodeShape) -> bool
        requires all { (W.seen words.old).count ≡ all_words self.now.shape.now }
        requires place { IsInside self.now.shape.now at }
        ensures { SaidBool (λ x. not (is_empty at.words (span_row x at))) (W.seen words.old) (W.seen words.new) result }
    {
        for k in 0..at.words {
            if self.word_of(words, at, k) != 0 {
                return true;
            }
        }
        false
    }

    /// A word of a meaning.
    fn meant_word<W: Words>(&self, words: &mut W, m: Meaning, k: u32) -> u64
        requires all { (W.seen words.old).count ≡ all_words self.now.shape.now }
        requires fits { MeaningFits self.now.shape.now m }
        requires inside { k < m.made.words }
        ensures { SaidWord (λ x. meant_row m x k) (W.seen words.old) (W.seen words.new) result }
    {
        if m.saturated {
            return self.word_of(words, m.made, k);
        }
        let held = self.word_of(words, m.of, k);
        let made = self.word_of(words, m.made, k);
        held & made
    }

    /// A word of a source.
    fn source_word<W: Words>(&self, words: &mut W, from: Source, k: u32) -> u64
        requires all { (W.seen words.old).count ≡ all_words self.now.shape.now }
        requires fits { SourceFits self.now.shape.now from }
        requires inside { k < source_words from }
        ensures { SaidWord (λ x. source_row from x k) (W.seen words.old) (W.seen words.new) result }
    {
        match from {
            Source::Made(at) => self.word_of(words, at, k),
            Source::Meant(m) => self.meant_word(words, m, k),
            Source::Held(at) => self.word_of(words, at, k),
        }
    }

    /// A word of the types of a source.
    fn types_word<W: Words>(&self, words: &mut W, from: Source, k: u32) -> u64
        requires all { (W.seen words.old).count ≡ all_words self.now.shape.now }
        requires fits { SourceFits self.now.shape.now from }
        requires inside { k < source_words from }
        ensures { SaidWord (λ x. types_of (source_row from x) k) (W.seen words.old) (W.seen words.new) result }
    {
        let word = self.source_word(words, from, k);
        without_flags(word, k)
    }

    /// What a mask leaves of a word.
    fn masked<W: Words>(&self, words: &mut W, mask: Mask, word: u64, k: u32, n: u32) -> u64
        requires all { (W.seen words.old).count ≡ all_words self.now.shape.now }
        requires fits { MaskFits self.now.shape.now self.now.side.now n mask }
        requires inside { k < n }
        ensures { SaidWord (λ x. masked self.now.side.now mask x k word) (W.seen words.old) (W.seen words.new) result }
    {
        match mask {
            Mask::All => word,
            Mask::Under(u) => word & word_at(self.side.mask(u), k),
            Mask::NotUnder(u) => word & !word_at(self.side.mask(u), k),
            Mask::Picking(site, j) => word & self.picking_word(site, j, k),
            Mask::AlsoIn(m) => word & self.types_word(words, Source::Meant(m), k),
        }
    }

    /// A word of the types that pick a candidate at a site.
    fn picking_word(&self, site: u32, j: u32, k: u32) -> u64
        requires { site < length self.now.side.now.sites }
        ensures { result ≡ picking_row self.now.side.now site j k }
    {
        let mut word = 0u64;
        for i in 0..64u32 {
            let picks = self.picks_at(site, j, k as u64 * 64 + i as u64);
            word = bit_if(picks, i) | word;
        }
        word
    }

    /// Whether the type of a bit picks a candidate at a site.
    fn picks_at(&self, site: u32, j: u32, b: u64) -> bool
        requires { site < length self.now.side.now.sites }
        ensures { result ≡ is_candidate (pick_of (table_of self.now.side.now.tables self.now.side.now.sites site) (b - 1)) j }
    {
        let t = if b == 0 { 0 } else { b - 1 };
        match self.side.picks_by_number(site, t) {
            Some(candidate) => candidate == j,
            None => false,
        }
    }

    /// A word of a set.
    pub(crate) fn set_word<W: Words>(&self, words: &mut W, set: TypeSet, k: u32) -> u64
        requires all { (W.seen words.old).count ≡ all_words self.now.shape.now }
        requires fits { SetFits self.now.shape.now self.now.side.now set }
        requires inside { k < set.words }
        ensures { SaidWord (λ x. set_row self.now.side.now set x k) (W.seen words.old) (W.seen words.new) result }
    {
        if set.there {
            let types = self.types_word(words, set.from, k);
            return self.masked(words, set.mask, types, k, set.words);
        }
        0
    }

    /// Whether a set has a type.
    pub(crate) fn has_types<W: Words>(&self, words: &mut W, set: TypeSet) -> bool
        requires all { (W.seen words.old).count ≡ all_words self.now.shape.now }
        requires fits { SetFits self.now.shape.now self.now.side.now set }
        ensures { SaidBool (λ x. not (is_empty set.words (set_row self.now.side.now set x))) (W.seen words.old) (W.seen words.new) result }
    {
        for k in 0..set.words {
            if self.set_word(words, set, k) != 0 {
                return true;
            }
        }
        false
    }

    /// Whether a set has more types than the threshold. Counting stops above it.
    pub(crate) fn is_over<W: Words>(&self, words: &mut W, set: TypeSet) -> bool
        requires all { (W.seen words.old).count ≡ all_words self.now.shape.now }
        requires fits { SetFits self.now.shape.now self.now.side.now set }
        ensures { SaidBool (λ x. nat_lt self.now.most (counted set.words (set_row self.now.side.now set x))) (W.seen words.old) (W.seen words.new) result }
    {
        let mut count = 0u64;
        for k in 0..set.words {
            if count > self.most as u64 {
                return true;
            }
            let word = self.set_word(words, set, k);
            count += word.count_ones() as u64;
        }
        count > self.most as u64
    }

    /// Whether the value of a node of references is saturated.
    pub(crate) fn is_saturated<W: Words>(&self, words: &mut W, at: NodeShape) -> bool
        requires all { (W.seen words.old).count ≡ all_words self.now.shape.now }
        requires place { IsInside self.now.shape.now at }
        requires some { 0 < at.words }
        ensures { SaidBool (λ x. is_saturated self.now.most at.words (span_row x at)) (W.seen words.old) (W.seen words.new) result }
    {
        if self.bit_of(words, at, 0) {
            return true;
        }
        let held = TypeSet {
            there: true,
            words: at.words,
            from: Source::Held(at),
            mask: Mask::All,
        };
        self.is_over(words, held)
    }

    /// Whether a value has a bit, or is saturated.
    pub(crate) fn holds<W: Words>(&self, words: &mut W, m: Meaning, b: u64) -> bool
        requires all { (W.seen words.old).count ≡ all_words self.now.shape.now }
        requires fits { MeaningFits self.now.shape.now m }
        requires inside { b < 64 * m.made.words }
        ensures { SaidBool (λ x. m.saturated || has_bit (span_row x m.of) b) (W.seen words.old) (W.seen words.new) result }
    {
        m.saturated || self.bit_of(words, m.of, b)
    }

    /// Whether a meaning has a type, or null for type 0.
    pub(crate) fn has_meaning<W: Words>(&self, words: &mut W, m: Meaning, t: u64) -> bool
        requires all { (W.seen words.old).count ≡ all_words self.now.shape.now }
        requires fits { MeaningFits self.now.shape.now m }
        requires few { t + 1 < 64 * m.made.words }
        ensures { SaidBool (λ x. has_meaning m x t) (W.seen words.old) (W.seen words.new) result }
    {
        if t == 0 {
            return self.holds(words, m, 1);
        }
        let b = t + 1;
        if !self.holds(words, m, b) {
            return false;
        }
        self.bit_of(words, m.made, b)
    }
}

/// Whether a bit of a word is set.
fn bit(word: u64, i: u32) -> bool
    requires { i < 64 }
    ensures { result ≡ (bit_at word i == 1) }
{
    (word >> i) & 1 == 1
}

/// A bit, where it is to be set.
pub(crate) fn bit_if(set: bool, i: u32) -> u64
    requires { i < 64 }
    ensures { result ≡ (if set then 2 ^ i else 0) }
{
    if set { 1 << i } else { 0 }
}

/// A word without the bits that say saturated and null.
fn without_flags(word: u64, k: u32) -> u64
    ensures { result ≡ types_of (λ _. word) k }
{
    if k == 0 { word & !3 } else { word }
}

/// A word of a row, and 0 past its end.
fn word_at(row: &[u64], k: u32) -> u64
    ensures { result ≡ words_of row.now k }
{
    match row.get(k as usize) {
        Some(word) => *word,
        None => 0,
    }
}
