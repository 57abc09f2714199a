ghost use Rattle.std.specs.Prelude.{◌≡◌};
ghost use Rattle.wf_names.specs.Words.{input_why_word};

/// What is wrong with a line of a summary or of a list of roots (own rule).
#[derive(Clone, Copy, Debug, PartialEq, Eq)]
pub enum InputWhy {
    /// The line is outside the grammar.
    Form,
    /// An effect stands outside a block.
    Place,
    /// A class, method, field or type isn't there.
    Absent,
    /// What is named is of the wrong kind.
    Kind,
    /// A method has a second block.
    Twice,
}

impl InputWhy {
    /// The word that is printed.
    pub fn word(self) -> &'static [u8]
        ensures { result.now ≡ input_why_word self }
    {
        match self {
            InputWhy::Form => b"form",
            InputWhy::Place => b"place",
            InputWhy::Absent => b"absent",
            InputWhy::Kind => b"kind",
            InputWhy::Twice => b"twice",
        }
    }
}
