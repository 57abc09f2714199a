ghost use Rattle.std.specs.Prelude.{◌≡◌};
ghost use Rattle.wf_rows.specs.Errors.{class_name, throwable_of};

use wf_names::LinkError;

/// What the machine itself throws (JVMS 6.5, 5.4.3 and 5.5): the classes of java/lang with these names and
/// `Exception` or `Error` behind them.
#[derive(Clone, Copy)]
pub enum Throwable {
    NullPointer,
    ArrayIndexOutOfBounds,
    ArrayStore,
    NegativeArraySize,
    ClassCast,
    Arithmetic,
    AbstractMethod,
    IncompatibleClassChange,
    NoClassDefFound,
    NoSuchField,
    NoSuchMethod,
    Instantiation,
    ExceptionInInitializer,
}

impl Throwable {
    /// The name of its class.
    pub fn class_name(self) -> &'static [u8]
        ensures { result.now ≡ class_name self }
    {
        match self {
            Throwable::NullPointer => b"java/lang/NullPointerException",
            Throwable::ArrayIndexOutOfBounds => b"java/lang/ArrayIndexOutOfBoundsException",
            Throwable::ArrayStore => b"java/lang/ArrayStoreException",
            Throwable::NegativeArraySize => b"java/lang/NegativeArraySizeException",
            Throwable::ClassCast => b"java/lang/ClassCastException",
            Throwable::Arithmetic => b"java/lang/ArithmeticException",
            Throwable::AbstractMethod => b"java/lang/AbstractMethodError",
            Throwable::IncompatibleClassChange => b"java/lang/IncompatibleClassChangeError",
            Throwable::NoClassDefFound => b"java/lang/NoClassDefFoundError",
            Throwable::NoSuchField => b"java/lang/NoSuchFieldError",
            Throwable::NoSuchMethod => b"java/lang/NoSuchMethodError",
            Throwable::Instantiation => b"java/lang/InstantiationError",
            Throwable::ExceptionInInitializer => b"java/lang/ExceptionInInitializerError",
        }
    }

    /// What is thrown where a place fails to link.
    pub fn of(error: LinkError) -> Throwable
        ensures { result ≡ throwable_of error }
    {
        match error {
            LinkError::NoClassDefFound => Throwable::NoClassDefFound,
            LinkError::NoSuchField => Throwable::NoSuchField,
            LinkError::NoSuchMethod => Throwable::NoSuchMethod,
            LinkError::IncompatibleClassChange => Throwable::IncompatibleClassChange,
            LinkError::Instantiation => Throwable::Instantiation,
        }
    }
}
