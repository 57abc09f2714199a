//! One inequality evaluated: its guard, its plan, and a word of its plan.

ghost use Rattle.std.specs.Prelude.{◌≡◌, ◌+◌, ◌*◌, ◌<◌, ◌&&◌, None, length, nat_lt, slice_index_or};
ghost use Rattle.wf_lattice.specs.Words.{one_word, flags_of};
ghost use Rattle.wf_system.specs.Shapes.{all_words};
ghost use Rattle.wf_system.specs.Sides.{pick_of, table_of};
ghost use Rattle.wf_system.specs.Rows.{type_row};
ghost use Rattle.wf_system.specs.System.{guard_holds, is_candidate, some_type, row_if, elem_row};
ghost use Rattle.wf_system.specs.Fits.{AreShaped, GuardFits, GuardIsThere};
ghost use Rattle.wf_system.specs.Bodies.{tables_of};
ghost use Rattle.wf_eval.specs.Said.{Seen, SaidWord, SaidBool};
ghost use Rattle.wf_eval.specs.Reading.{rows_of};
ghost use Rattle.wf_eval.specs.Plans.{has_meaning, candidates_row, elements_row, planned, TypesFit, ElementsFit, PlanFits};

use crate::lookup::{Lookup, bit_if};
use crate::plan::{Mask, Meaning, Plan, Source, TypeSet};
use crate::words::Words;
use wf_base::{NodeId, TypeId};
use wf_system::Guard;

impl Lookup<'_> {
    /// Whether a type other than null is in a meaning and picks a candidate at a site.
    fn picks_so<W: Words>(&self, words: &mut W, m: Meaning, site: u32, j: u64, c: u64) -> bool
        requires all { (W.seen words.old).count ≡ all_words self.now.shape.now }
        requires fits { TypesFit self.now.shape.now self.now.side.now m }
        requires site { site < length self.now.side.now.sites }
        requires there { c < length self.now.side.now.elems }
        ensures { SaidBool (λ x. nat_lt 0 c && (has_meaning m x c && is_candidate (pick_of (table_of self.now.side.now.tables self.now.side.now.sites site) c) j)) (W.seen words.old) (W.seen words.new) result }
    {
        if c == 0 {
            return false;
        }
        if !self.is_picked(site, j, c) {
            return false;
        }
        self.has_meaning(words, m, c)
    }

    /// Whether a type picks a candidate at a site.
    fn is_picked(&self, site: u32, j: u64, c: u64) -> bool
        requires { site < length self.now.side.now.sites }
        ensures { result ≡ is_candidate (pick_of (table_of self.now.side.now.tables self.now.side.now.sites site) c) j }
    {
        match self.side.picks_by_number(site, c) {
            Some(candidate) => candidate as u64 == j,
            None => false,
        }
    }

    /// Whether some type of a meaning picks a candidate at a site.
    fn some_picks<W: Words>(&self, words: &mut W, m: Meaning, site: u32, j: u64) -> bool
        requires all { (W.seen words.old).count ≡ all_words self.now.shape.now }
        requires fits { TypesFit self.now.shape.now self.now.side.now m }
        requires site { site < length self.now.side.now.sites }
        ensures { SaidBool (λ x. some_type (length self.now.side.now.elems) (λ c. has_meaning m x c && is_candidate (pick_of (table_of self.now.side.now.tables self.now.side.now.sites site) c) j)) (W.seen words.old) (W.seen words.new) result }
    {
        for c in 0..self.side.elems.len() {
            if self.picks_so(words, m, site, j, c as u64) {
                return true;
            }
        }
        false
    }

    /// A word of the candidates that types of a meaning pick.
    fn candidates_word<W: Words>(&self, words: &mut W, m: Meaning, site: u32, k: u32) -> u64
        requires all { (W.seen words.old).count ≡ all_words self.now.shape.now }
        requires fits { TypesFit self.now.shape.now self.now.side.now m }
        requires site { site < length self.now.side.now.sites }
        ensures { SaidWord (λ x. candidates_row self.now.side.now m site x k) (W.seen words.old) (W.seen words.new) result }
    {
        let mut word = 0u64;
        for i in 0..64u32 {
            let picks = self.some_picks(words, m, site, k as u64 * 64 + i as u64);
            word = bit_if(picks, i) | word;
        }
        word
    }

    /// A word of the elements of a type, where it is in a meaning.
    fn element_word<W: Words>(&self, words: &mut W, m: Meaning, c: usize, k: u32, n: u32) -> u64
        requires all { (W.seen words.old).count ≡ all_words self.now.shape.now }
        requires fits { TypesFit self.now.shape.now self.now.side.now m }
        requires elements { ElementsFit self.now.shape.now self.now.side.now n }
        requires inside { k < n }
        requires there { c < length self.now.side.now.elems }
        ensures { SaidWord (λ x. row_if (has_meaning m x c) (elem_row (rows_of self.now.shape.now x) (slice_index_or self.now.side.now.elems c None)) k) (W.seen words.old) (W.seen words.new) result }
    {
        match self.side.elems.as_slice()[c] {
            None => 0,
            Some(node) => {
                if self.has_meaning(words, m, c as u64) {
                    return self.word_of(words, self.shape.node(node), k);
                }
                0
            }
        }
    }

    /// A word of the elements of the array types of a meaning.
    fn elements_word<W: Words>(&self, words: &mut W, m: Meaning, k: u32, n: u32) -> u64
        requires all { (W.seen words.old).count ≡ all_words self.now.shape.now }
        requires fits { TypesFit self.now.shape.now self.now.side.now m }
        requires elements { ElementsFit self.now.shape.now self.now.side.now n }
        requires inside { k < n }
        ensures { SaidWord (λ x. elements_row self.now.shape.now self.now.side.now m x (length self.now.side.now.elems) k) (W.seen words.old) (W.seen words.new) result }
    {
        let mut word = 0u64;
        for c in 0..self.side.elems.len() {
            let more = self.element_word(words, m, c, k, n);
            word = word | more;
        }
        word
    }

    /// The word at place k of a plan, for a target of n words.
    pub fn word<W: Words>(&self, words: &mut W, plan: Plan, k: u32, n: u32) -> u64
        requires all { (W.seen words.old).count ≡ all_words self.now.shape.now }
        requires fits { PlanFits self.now.shape.now self.now.side.now n plan }
        requires inside { k < n }
        ensures { SaidWord (λ x. planned self.now.shape.now self.now.side.now plan x k) (W.seen words.old) (W.seen words.new) result }
    {
        match plan {
            Plan::First(word) => first_word(word, k),
            Plan::Row(at) => self.word_of(words, at, k),
            Plan::OneType(t) => type_word(t, k),
            Plan::IfMade(t, made) => type_word(t, k) & self.word_of(words, made, k),
            Plan::Types(set, over, null) => self.set_word(words, set, k)
                | flags_word(over, null, k),
            Plan::Candidates(m, site) => self.candidates_word(words, m, site, k),
            Plan::Elements(m) => self.elements_word(words, m, k, n),
        }
    }

    /// Whether a guard holds.
    pub fn guard<W: Words>(&self, words: &mut W, guard: Guard<NodeId>) -> bool
        requires all { (W.seen words.old).count ≡ all_words self.now.shape.now }
        requires shaped { AreShaped (tables_of self.now.shape.now self.now.most self.now.side.now) }
        requires fits { GuardFits (tables_of self.now.shape.now self.now.most self.now.side.now) guard }
        requires there { GuardIsThere (tables_of self.now.shape.now self.now.most self.now.side.now) guard }
        ensures { SaidBool (λ x. guard_holds (tables_of self.now.shape.now self.now.most self.now.side.now) guard (rows_of self.now.shape.now x)) (W.seen words.old) (W.seen words.new) result }
    {
        match guard {
            Guard::Always => true,
            Guard::NonEmpty(n) => self.any_of(words, self.shape.node(n)),
            Guard::HasType(t) => self.bit_of(
                words,
                self.shape.node(self.side.inst),
                t.0 as u64 + 1,
            ),
            Guard::HasUnder(u) => {
                let made = self.shape.node(self.side.inst);
                let set = TypeSet {
                    there: true,
                    words: made.words,
                    from: Source::Made(made),
                    mask: Mask::Under(u),
                };
                self.has_types(words, set)
            }
            Guard::Linked(n, j) => self.bit_of(words, self.shape.node(n), j as u64),
        }
    }
}

/// A row of one word.
fn first_word(word: u64, k: u32) -> u64
    ensures { result ≡ one_word word k }
{
    if k == 0 { word } else { 0 }
}

/// A word of the row of one type.
fn type_word(t: TypeId, k: u32) -> u64
    ensures { result ≡ type_row t.0 k }
{
    let b = t.0 as u64 + 1;
    if k as u64 == b / 64 { 1 << (b % 64) } else { 0 }
}

/// A word of the bits that say saturated and null.
fn flags_word(saturated: bool, null: bool, k: u32) -> u64
    ensures { result ≡ flags_of saturated null k }
{
    if k == 0 {
        saturated as u64 + 2 * (null as u64)
    } else {
        0
    }
}
