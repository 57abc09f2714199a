ghost use Rattle.std.specs.Prelude.{◌≡◌, ◌==◌, ◌++◌, ◌+◌, ◌≤◌, List, [], length, take, drop, IfOk, OnOk, OnErr};
ghost use Rattle.std.specs.Cmp.Lexicographic.{pointwise, slice_cmp};
ghost use Rattle.std.proofs.Common.{rules};
ghost use Rattle.std.specs.Cmp.{partial_order_from_own_ties};
ghost use Rattle.std.specs.Cmp.Rules.{comparing};
ghost use Rattle.std.specs.Cmp.Rules.{hashing};
ghost use Rattle.std.specs.Hash as fed;
ghost use Rattle.std.specs.Ordering.{nat_cmp, as_partial_cmp};

use std::alloc::{AllocError, Global};
use std::cmp::Ordering;
use std::hash::{Hash, Hasher};
use std::marker::Model;
use std::sync::Arc;

/// Bytes that are a name, a path, a piece of code or a line. A contract sees them as a list of numbers
/// below 256. Texts are ordered by their bytes.
#[derive(Debug, Drop)]
pub struct Text {
    bytes: Bytes,
}

/// A text has its bytes alone, or is a part of bytes that it shares: the place of its first byte, and how
/// many it has.
#[derive(Debug, Drop)]
enum Bytes {
    Own(Vec<u8>),
    Shared(Arc<Vec<u8>>, usize, usize),
}

impl Bytes {
    ghost use Rattle.wf_base.specs.Text.{bytes_of, Fits};

    fn as_slice(&self) -> &[u8]
        requires { Fits self.now }
        ensures { result.now ≡ bytes_of self.now }
    {
        match self {
            Bytes::Own(bytes) => bytes.as_slice(),
            Bytes::Shared(bytes, first, len) => &bytes.as_slice()[*first..*first + *len],
        }
    }
}

impl Model for Text {
    ghost use Rattle.std.specs.Prelude.{List, ℕ};
    ghost use Rattle.wf_base.specs.Text.{bytes_of, Fits};

    ghost Value = { List ℕ };

    ghost view = { λ t. bytes_of t.bytes };

    ghost invariant = { λ t. Fits t.bytes };
}

impl Text {
    /// The empty text.
    pub fn new(alloc: Global) -> Text
        ensures { result ≡ [] }
    {
        Text::from_vec(Vec::new(alloc))
    }

    /// A copy of the bytes.
    pub fn from_slice(alloc: Global, bytes: &[u8]) -> Result<Text, AllocError>
        ensures { IfOk result (λ text. text ≡ bytes.now) }
    {
        Ok(Text::from_vec(Vec::from_slice(alloc, bytes)?))
    }

    /// A copy of the bytes that its clones and parts share, so that making these takes no memory.
    pub fn shared(alloc: Global, bytes: &[u8]) -> Result<Text, AllocError>
        ensures { IfOk result (λ text. text ≡ bytes.now) }
    {
        let len = bytes.len();
        let bytes = Arc::new(alloc, Vec::from_slice(alloc, bytes)?)?;
        Ok(Text {
            bytes: Bytes::Shared(bytes, 0, len),
        })
    }

    /// The same text, whose clones and parts share its bytes. It moves bytes that it has alone, and copies none.
    pub fn into_shared(self, alloc: Global) -> Result<Text, AllocError>
        ensures { IfOk result (λ text. text ≡ self) }
    {
        match self.bytes {
            Bytes::Own(bytes) => {
                let len = bytes.len();
                let bytes = Arc::new(alloc, bytes)?;
                Ok(Text {
                    bytes: Bytes::Shared(bytes, 0, len),
                })
            }
            Bytes::Shared(bytes, first, len) => Ok(Text {
                bytes: Bytes::Shared(bytes, first, len),
            }),
        }
    }

    /// `len` of its bytes, from `first` on. It shares them where the text shares its bytes already, and copies
    /// them elsewhere.
    #[tactic(auto, using(crate::proofs::Parts::shown))]
    pub fn part(&self, alloc: Global, first: usize, len: usize) -> Result<Text, AllocError>
        requires { first + len ≤ length self.now }
        ensures { IfOk result (λ text. text ≡ take len (drop first self.now)) }
    {
        match &self.bytes {
            Bytes::Own(bytes) => Text::from_slice(alloc, &bytes.as_slice()[first..first + len]),
            Bytes::Shared(bytes, begin, _) => Ok(Text {
                bytes: Bytes::Shared(bytes.clone()?, *begin + first, len),
            }),
        }
    }

    pub fn from_vec(bytes: Vec<u8>) -> Text
        ensures { result ≡ bytes.items }
    {
        Text {
            bytes: Bytes::Own(bytes),
        }
    }

    pub fn as_slice(&self) -> &[u8]
        ensures { result.now ≡ self.now }
    {
        self.bytes.as_slice()
    }

    /// Appends the bytes. For want of memory the text stays as it was.
    pub fn push_slice(&mut self, bytes: &[u8]) -> Result<(), AllocError>
        ensures ok { OnOk result (self.new ≡ self.old ++ bytes.now) }
        ensures err { OnErr result (self.new ≡ self.old) }
    {
        match &mut self.bytes {
            Bytes::Own(own) => own.extend_from_slice(bytes),
            Bytes::Shared(shared, first, len) => {
                let shown = &shared.as_slice()[*first..*first + *len];
                let mut own = Vec::from_slice(*shared.allocator(), shown)?;
                own.extend_from_slice(bytes)?;
                self.bytes = Bytes::Own(own);
                Ok(())
            }
        }
    }
}

impl Clone for Text {
    ghost is_clone = { λ text copy. copy ≡ text };

    fn clone(&self) -> Result<Text, AllocError> {
        Ok(Text {
            bytes: match &self.bytes {
                Bytes::Own(bytes) => Bytes::Own(bytes.clone()?),
                Bytes::Shared(bytes, first, len) => Bytes::Shared(bytes.clone()?, *first, *len),
            },
        })
    }
}

impl PartialEq for Text {
    ghost eq = { pointwise ◌==◌ };

    ghost laws = { Prim.search (comparing, rules) };

    fn eq(&self, other: &Text) -> bool {
        self.as_slice() == other.as_slice()
    }
}

impl Eq for Text {
    ghost laws = { Prim.search (comparing, rules) };
}

impl Hash for Text {
    ghost hash_input = { fed.slice fed.u8 };

    ghost respects_eq = { Prim.search (hashing, rules) };

    fn hash<H: Hasher>(&self, state: &mut H) {
        self.as_slice().hash(state);
    }
}

impl PartialOrd for Text {
    ghost partial_cmp = { as_partial_cmp (slice_cmp nat_cmp) };

    ghost laws = { partial_order_from_own_ties (Prim.search (comparing, rules)) (Prim.search (comparing, rules)) };

    fn partial_cmp(&self, other: &Text) -> Option<Ordering> {
        Some(self.cmp(other))
    }
}

impl Ord for Text {
    ghost cmp = { slice_cmp nat_cmp };

    ghost total = { Prim.search (comparing, rules) };

    ghost matches_partial_cmp = { Prim.search (comparing, rules) };

    ghost matches_eq = { Prim.search (comparing, rules) };

    fn cmp(&self, other: &Text) -> Ordering {
        self.as_slice().cmp(&other.as_slice())
    }
}
