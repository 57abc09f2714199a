ghost use Rattle.std.specs.Prelude.{◌≡◌};
ghost use Rattle.wf_data.specs.Words.{what_word};

/// Why a method that is entered can't be analysed.
#[derive(Clone, Copy, Debug, PartialEq, Eq)]
pub enum What {
    /// An instruction on floats or doubles.
    Float,
    InvokeDynamic,
    /// `jsr`, `jsr_w` or `ret`.
    Jsr,
    /// A constant that is a method handle or a method type.
    MethodHandle,
    Reflection,
    Thread,
    /// A native method of which nothing is said.
    Native,
    /// Bytes that are no instruction.
    Code,
    /// Instructions that don't fit together (JVMS 4.10).
    Shape,
}

impl What {
    /// The word that is printed.
    pub fn word(self) -> &'static [u8]
        ensures { result.now ≡ what_word self }
    {
        match self {
            What::Float => b"float",
            What::InvokeDynamic => b"invokedynamic",
            What::Jsr => b"jsr",
            What::MethodHandle => b"method handle",
            What::Reflection => b"reflection",
            What::Thread => b"thread",
            What::Native => b"native",
            What::Code => b"code",
            What::Shape => b"shape",
        }
    }
}
