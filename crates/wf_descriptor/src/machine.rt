ghost use Rattle.std.specs.Prelude.{◌≡◌, ◌≤◌, length, IfSome};
ghost use Rattle.wf_descriptor.specs.Descriptors.{is_letter, kind_of, slots_of, type_step, name_step, param_step, step, stop, is_field_descriptor, is_method_descriptor};

use wf_base::Kind;
use wf_names::is_forbidden;

/// What may follow a type.
#[derive(Clone, Copy, Debug, PartialEq, Eq)]
pub enum Follow {
    /// More parameters that take at most so many slots, or `)`.
    Params(u8),
    End,
}

/// How far a descriptor was read.
#[derive(Clone, Copy, Debug, PartialEq, Eq)]
pub enum State {
    /// In front of the `(`, with so many slots for the parameters.
    Open(u8),
    Behind(Follow),
    /// In front of the result.
    Return,
    /// In front of a type that may have so many dimensions.
    Start(u8, Follow),
    /// In a class name, and whether the part there has a byte.
    Name(bool, Follow),
}

fn is_letter(b: u8) -> bool
    ensures { result ≡ is_letter b }
{
    b == b'B'
        || b == b'C'
        || b == b'D'
        || b == b'F'
        || b == b'I'
        || b == b'J'
        || b == b'S'
        || b == b'Z'
}

/// The kind of a type by its first byte.
pub fn kind_of(b: u8) -> Kind
    ensures { result ≡ kind_of b }
{
    match b {
        b'J' => Kind::Long,
        b'F' => Kind::Float,
        b'D' => Kind::Double,
        b'L' | b'[' => Kind::Ref,
        _ => Kind::Int,
    }
}

fn slots_of(kind: Kind) -> u8
    ensures { result ≡ slots_of kind }
{
    match kind {
        Kind::Long | Kind::Double => 2,
        Kind::Int | Kind::Ref | Kind::Float => 1,
    }
}

fn type_step(dims: u8, follow: Follow, b: u8) -> Option<State>
    ensures { result ≡ type_step dims follow b }
{
    if is_letter(b) {
        Some(State::Behind(follow))
    } else if b == b'L' {
        Some(State::Name(false, follow))
    } else if b == b'[' && 0 < dims {
        Some(State::Start(dims - 1, follow))
    } else {
        None
    }
}

fn name_step(begun: bool, follow: Follow, b: u8) -> Option<State>
    ensures { result ≡ name_step begun follow b }
{
    if b == b'/' {
        begun.then_some(State::Name(false, follow))
    } else if b == b';' {
        begun.then_some(State::Behind(follow))
    } else if is_forbidden(b) {
        None
    } else {
        Some(State::Name(true, follow))
    }
}

fn param_step(slots: u8, b: u8) -> Option<State>
    ensures { result ≡ param_step slots b }
{
    if b == b')' {
        return Some(State::Return);
    }
    let taken = slots_of(kind_of(b));
    if slots < taken {
        return None;
    }
    type_step(255, Follow::Params(slots - taken), b)
}

fn step(state: State, b: u8) -> Option<State>
    ensures { result ≡ step state b }
{
    match state {
        State::Open(slots) => (b == b'(').then_some(State::Behind(Follow::Params(slots))),
        State::Behind(Follow::Params(slots)) => param_step(slots, b),
        State::Behind(Follow::End) => None,
        State::Return if b == b'V' => Some(State::Behind(Follow::End)),
        State::Return => type_step(255, Follow::End, b),
        State::Start(dims, follow) => type_step(dims, follow, b),
        State::Name(begun, follow) => name_step(begun, follow, b),
    }
}

/// Where the bytes stop to be the beginning of a descriptor. None where they are one.
pub fn stop(state: State, bytes: &[u8]) -> Option<usize>
    ensures gives { result ≡ stop state 0 bytes.now }
    ensures within { IfSome result (λ at. at ≤ length bytes.now) }
{
    let mut state = state;
    for (at, b) in bytes.iter().enumerate() {
        match step(state, *b) {
            Some(next) => state = next,
            None => return Some(at),
        }
    }
    match state {
        State::Behind(Follow::End) => None,
        _ => Some(bytes.len()),
    }
}

/// Whether the bytes are the descriptor of a field. Takes no memory.
pub fn is_field_descriptor(bytes: &[u8]) -> bool
    ensures { result ≡ is_field_descriptor bytes.now }
{
    stop(State::Start(255, Follow::End), bytes).is_none()
}

/// Whether the bytes are the descriptor of a method whose parameters take at most so many slots. Takes no
/// memory.
pub fn is_method_descriptor(bytes: &[u8], slots: u8) -> bool
    ensures { result ≡ is_method_descriptor slots bytes.now }
{
    stop(State::Open(slots), bytes).is_none()
}
