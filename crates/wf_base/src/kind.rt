/// What a value is to the machine (JVMS 2.11.1): a boolean, byte, char, short or int is an `Int`, and every
/// object, array and null a `Ref`.
#[derive(Clone, Copy, Debug, PartialEq, Eq)]
pub enum Kind {
    Int,
    Long,
    Ref,
    Float,
    Double,
}
