//! The table of the instructions (JVMS 6.5): a row for each opcode.

ghost use Rattle.std.specs.Prelude.{◌≡◌, ℕ, ◌<◌, ◌≤◌, Some};
ghost use Rattle.wf_opcode.specs.declared.form.Row.{Row};
ghost use Rattle.wf_opcode.specs.Table.{plain, short, refused_row, float_if, is_float_kind, constant_row, load_row, store_row, arithmetic_row, control_row, object_row, row_of, refused_as};

use wf_data::What;

/// What stands behind an opcode.
#[derive(Clone, Copy, Debug, PartialEq, Eq)]
pub enum Form {
    /// Nothing.
    Alone,
    /// A signed constant of one byte.
    S1,
    /// A signed constant of two bytes.
    S2,
    /// A local or an index, of one byte.
    U1,
    /// A local or an index, of two bytes.
    U2,
    /// How far a jump goes, in two bytes.
    Jump2,
    /// How far a jump goes, in four bytes.
    Jump4,
    /// A local and a constant.
    Iinc,
    /// An index and two bytes that aren't looked at.
    Invoke,
    /// What an array is of.
    NewArray,
    /// An index and a number of dimensions.
    MultiArray,
    TableSwitch,
    LookupSwitch,
    /// An instruction with a local of two bytes.
    Wide,
}

/// A row of the table.
#[derive(Clone, Copy, Debug, PartialEq, Eq)]
pub struct Row {
    pub form: Form,
    /// The opcode of the long form.
    pub op: u8,
    /// The constant or the local that a short form stands for.
    pub value: i32,
    /// As what a method that has the instruction is refused, where its opcode alone decides.
    pub refused: Option<What>,
}

fn plain(form: Form, op: u8) -> Row
    ensures { result ≡ plain form op }
{
    Row {
        form,
        op,
        value: 0,
        refused: None,
    }
}

fn short(op: u8, value: i32) -> Row
    ensures { result ≡ short op value }
{
    Row {
        value,
        ..plain(Form::Alone, op)
    }
}

fn refused(what: What, row: Row) -> Row
    ensures { result ≡ refused_row what row }
{
    Row {
        refused: Some(what),
        ..row
    }
}

fn float_if(test: bool, row: Row) -> Row
    ensures { result ≡ float_if test row }
{
    if test { refused(What::Float, row) } else { row }
}

fn is_float_kind(kind: u8) -> bool
    ensures { result ≡ is_float_kind kind }
{
    matches!(kind, 2 | 3)
}

#[tactic(auto, unfolding(crate::specs::Table::constant_row))]
fn constant_row(opcode: u8) -> Row
    ensures { result ≡ constant_row opcode }
{
    match opcode {
        0x00..=0x01 => plain(Form::Alone, opcode),
        0x02..=0x08 => short(0x10, opcode as i32 - 3),
        0x09..=0x0A => short(0x09, opcode as i32 - 9),
        0x0B..=0x0F => refused(What::Float, plain(Form::Alone, opcode)),
        0x10 => plain(Form::S1, opcode),
        0x11 => plain(Form::S2, opcode),
        0x12 => plain(Form::U1, opcode),
        0x13 => plain(Form::U2, 0x12),
        _ => plain(Form::U2, opcode),
    }
}

#[tactic(auto, unfolding(crate::specs::Table::load_row))]
fn load_row(opcode: u8) -> Row
    requires { 0x15 ≤ opcode }
    ensures { result ≡ load_row opcode }
{
    if opcode <= 0x19 {
        let kind = opcode - 0x15;
        return float_if(is_float_kind(kind), plain(Form::U1, opcode));
    }
    if opcode <= 0x2D {
        let kind = (opcode - 0x1A) / 4;
        let local = (opcode - 0x1A) % 4;
        return float_if(is_float_kind(kind), short(0x15 + kind, local as i32));
    }
    float_if(is_float_kind(opcode - 0x2E), plain(Form::Alone, opcode))
}

#[tactic(auto, unfolding(crate::specs::Table::store_row))]
fn store_row(opcode: u8) -> Row
    requires { 0x36 ≤ opcode }
    ensures { result ≡ store_row opcode }
{
    if opcode <= 0x3A {
        let kind = opcode - 0x36;
        return float_if(is_float_kind(kind), plain(Form::U1, opcode));
    }
    if opcode <= 0x4E {
        let kind = (opcode - 0x3B) / 4;
        let local = (opcode - 0x3B) % 4;
        return float_if(is_float_kind(kind), short(0x36 + kind, local as i32));
    }
    float_if(is_float_kind(opcode - 0x4F), plain(Form::Alone, opcode))
}

#[tactic(auto, unfolding(crate::specs::Table::arithmetic_row))]
fn arithmetic_row(opcode: u8) -> Row
    ensures { result ≡ arithmetic_row opcode }
{
    match opcode {
        0x00..=0x5F => plain(Form::Alone, opcode),
        0x60..=0x77 => float_if(
            is_float_kind((opcode - 0x60) % 4),
            plain(Form::Alone, opcode),
        ),
        0x78..=0x83 => plain(Form::Alone, opcode),
        0x84 => plain(Form::Iinc, opcode),
        0x85..=0x90 => float_if(
            !(opcode == 0x85 || opcode == 0x88),
            plain(Form::Alone, opcode),
        ),
        0x91..=0x94 => plain(Form::Alone, opcode),
        _ => refused(What::Float, plain(Form::Alone, opcode)),
    }
}

#[tactic(auto, unfolding(crate::specs::Table::control_row))]
fn control_row(opcode: u8) -> Row
    ensures { result ≡ control_row opcode }
{
    match opcode {
        0x00..=0xA7 => plain(Form::Jump2, opcode),
        0xA8 => refused(What::Jsr, plain(Form::Jump2, opcode)),
        0xA9 => refused(What::Jsr, plain(Form::U1, opcode)),
        0xAA => plain(Form::TableSwitch, 0xAB),
        0xAB => plain(Form::LookupSwitch, opcode),
        _ => float_if(is_float_kind(opcode - 0xAC), plain(Form::Alone, opcode)),
    }
}

#[tactic(auto, unfolding(crate::specs::Table::object_row))]
fn object_row(opcode: u8) -> Option<Row>
    ensures { result ≡ object_row opcode }
{
    let row = match opcode {
        0x00..=0xB8 | 0xBB | 0xBD | 0xC0..=0xC1 => plain(Form::U2, opcode),
        0xB9 => plain(Form::Invoke, opcode),
        0xBA => refused(What::InvokeDynamic, plain(Form::Invoke, opcode)),
        0xBC => plain(Form::NewArray, opcode),
        0xBE..=0xBF | 0xC2..=0xC3 => plain(Form::Alone, opcode),
        0xC4 => plain(Form::Wide, opcode),
        0xC5 => plain(Form::MultiArray, opcode),
        0xC6..=0xC7 => plain(Form::Jump2, opcode),
        0xC8 => plain(Form::Jump4, 0xA7),
        0xC9 => refused(What::Jsr, plain(Form::Jump4, 0xA8)),
        _ => return None,
    };
    Some(row)
}

/// The row of an opcode. Opcodes above c9 have none.
#[tactic(auto, unfolding(crate::specs::Table::row_of))]
pub fn row_of(opcode: u8) -> Option<Row>
    ensures { result ≡ row_of opcode }
{
    match opcode {
        0x00..=0x14 => Some(constant_row(opcode)),
        0x15..=0x35 => Some(load_row(opcode)),
        0x36..=0x56 => Some(store_row(opcode)),
        0x57..=0x98 => Some(arithmetic_row(opcode)),
        0x99..=0xB1 => Some(control_row(opcode)),
        _ => object_row(opcode),
    }
}

/// As what a method that has an instruction of this opcode is refused, where the opcode alone decides.
pub fn refused_as(opcode: u8) -> Option<What>
    ensures { result ≡ refused_as opcode }
{
    row_of(opcode)?.refused
}

/// An instruction is refused as its long form is.
pub fn long_forms_are_refused_alike()
    ensures { (opcode : ℕ) (row : Row) → opcode < 256 → row_of opcode ≡ Some row → refused_as row.op ≡ refused_as opcode }
{}
