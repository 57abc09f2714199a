ghost use Rattle.std.specs.Prelude.{◌≡◌};
ghost use Rattle.wf_names.specs.Limits.{most_of};
ghost use Rattle.wf_names.specs.Words.{limit_word};

/// What a run takes only so much of (own rule).
#[derive(Clone, Copy, Debug, PartialEq, Eq)]
pub enum Limit {
    /// Entries of all directories that are listed.
    Entries,
    /// Directories below one that is named.
    Depth,
    /// Class files.
    Files,
    /// Bytes of one class file, of the summary or of the list of roots.
    FileBytes,
    /// Bytes of all class files that are read.
    Bytes,
    /// Types of the universe, without null.
    Types,
    /// Methods of loadable classes.
    Methods,
    /// Fields of loadable classes.
    Fields,
    /// Nodes of the flow system.
    Nodes,
    /// Words that hold the values of nodes, eight bytes each.
    Words,
    /// Lines of the summary, or of the list of roots.
    SummaryLines,
    /// Distinct roots, listed or asked for.
    Roots,
}

impl Limit {
    /// How many a run takes at the most.
    pub fn most(self) -> u64
        ensures { result ≡ most_of self }
    {
        match self {
            Limit::Entries => 65536,
            Limit::Depth => 64,
            Limit::Files => 20000,
            Limit::FileBytes => 16777216,
            Limit::Bytes => 536870912,
            Limit::Types => 8192,
            Limit::Methods => 65536,
            Limit::Fields => 65536,
            Limit::Nodes => 4194304,
            Limit::Words => 67108864,
            Limit::SummaryLines => 65536,
            Limit::Roots => 4096,
        }
    }

    /// The name that is printed.
    pub fn word(self) -> &'static [u8]
        ensures { result.now ≡ limit_word self }
    {
        match self {
            Limit::Entries => b"entries",
            Limit::Depth => b"depth",
            Limit::Files => b"files",
            Limit::FileBytes => b"file bytes",
            Limit::Bytes => b"bytes",
            Limit::Types => b"types",
            Limit::Methods => b"methods",
            Limit::Fields => b"fields",
            Limit::Nodes => b"nodes",
            Limit::Words => b"words",
            Limit::SummaryLines => b"summary lines",
            Limit::Roots => b"roots",
        }
    }
}
