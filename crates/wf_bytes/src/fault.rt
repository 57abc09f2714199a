ghost use Rattle.std.specs.Prelude.{◌≡◌};
ghost use Rattle.wf_bytes.specs.Words.{why_word};

/// What is wrong with a file that is no class file.
#[derive(Clone, Copy, Debug, PartialEq, Eq)]
pub enum Why {
    Magic,
    Version,
    Index,
    Tag,
    Utf8,
    Name,
    Super,
    Descriptor,
    Twice,
    Length,
    Constant,
    Code,
    Cut,
    Trailing,
}

impl Why {
    /// The word that is printed.
    pub fn word(self) -> &'static [u8]
        ensures { result.now ≡ why_word self }
    {
        match self {
            Why::Magic => b"magic",
            Why::Version => b"version",
            Why::Index => b"index",
            Why::Tag => b"tag",
            Why::Utf8 => b"utf8",
            Why::Name => b"name",
            Why::Super => b"super",
            Why::Descriptor => b"descriptor",
            Why::Twice => b"twice",
            Why::Length => b"length",
            Why::Constant => b"constant",
            Why::Code => b"code",
            Why::Cut => b"cut",
            Why::Trailing => b"trailing",
        }
    }
}
