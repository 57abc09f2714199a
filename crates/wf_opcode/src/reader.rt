//! Readers of single instructions (JVMS 6.5), each against the function that reads lists.

ghost use Rattle.std.specs.Prelude.{◌≡◌, ℕ, ◌^◌, ◌<◌, ◌==◌, pos, ◌+ℤ◌, ◌≤ℤ◌, length};
ghost use Rattle.std.specs.Int.{w8, w16, w32, cast_signed};
ghost use Rattle.wf_bytes.specs.Place.{spot};
ghost use Rattle.wf_bytes.specs.Reading.{number, run, many, many_on};
ghost use Rattle.wf_opcode.specs.Decoding.{target, table_case, lookup_case, table_switch, lookup_switch, wide_iinc, wide_local, wide, jump2, jump4, iinc, invoke, new_array, multi_array, operands, instruction};
ghost use Rattle.wf_opcode.specs.Instructions.{target_of, padding, is_widened, entries, instr_of, switch_of};
ghost use Rattle.wf_opcode.specs.Readers.{Gives, GivesAs};

use crate::fault::Stop;
use crate::form::{Form, Row, row_of};
use std::alloc::Global;
use wf_base::Items;
use wf_bytes::Cursor;
use wf_data::{Case, Instr};

/// A reader of the instructions of a code, from the first to the last. Where none is, it may stand anywhere.
#[derive(Debug, Drop)]
pub struct Reader<'a> {
    alloc: Global,
    cursor: Cursor<'a>,
}

/// The place to which a jump leads that goes this far from the place pc, if it is one.
fn target_of(pc: u16, far: i32) -> Option<u16>
    ensures { result ≡ target_of pc far }
{
    let target = i64::from(pc) + i64::from(far);
    u16::try_from(target).ok()
}

/// Whether the instruction of an opcode takes a local of two bytes behind `wide`: it is a load, a store or ret (JVMS 6.5, wide).
pub fn is_widened(opcode: u8) -> bool
    ensures { result ≡ is_widened opcode }
{
    matches!(opcode, 0x15..=0x19 | 0x36..=0x3A | 0xA9)
}

/// How many bytes stand between the opcode of a switch and the next multiple of four.
fn padding(pc: u16) -> u32
    ensures { result ≡ padding pc }
{
    3 - pc as u32 % 4
}

/// The key of the i-th entry of a tableswitch.
fn key_at(low: i32, high: i32, i: u64) -> i32
    requires inside { i < entries low high }
    requires ordered { low ≤ℤ high }
    ensures { result ≡ low +ℤ pos i }
{
    (i64::from(low) + i as i64) as i32
}

fn switch(op: u8, target: u16, cases: Vec<Case>) -> Instr
    ensures { result ≡ switch_of op target cases.items }
{
    Instr {
        op,
        a: target as i32,
        b: 0,
        cases: Items::from_vec(cases),
    }
}

impl<'a> Reader<'a> {
    /// A reader in front of the first byte.
    pub fn new(alloc: Global, code: &'a [u8]) -> Reader<'a>
        requires { length code.now < 2 ^ 32 }
        ensures { result.cursor ≡ spot 0 code.now }
    {
        Reader {
            alloc,
            cursor: Cursor::new(code),
        }
    }

    #[tactic(auto, unfolding(wf_bytes::specs::Reading::number))]
    fn u1(&mut self) -> Result<u8, Stop>
        ensures { Gives self.new.cursor result (number w8 self.old.cursor) }
    {
        self.cursor.u1().ok_or(Stop::NoInstruction)
    }

    #[tactic(auto, unfolding(wf_bytes::specs::Reading::number))]
    fn u2(&mut self) -> Result<u16, Stop>
        ensures { Gives self.new.cursor result (number w16 self.old.cursor) }
    {
        self.cursor.u2().ok_or(Stop::NoInstruction)
    }

    #[tactic(auto, unfolding(wf_bytes::specs::Reading::number))]
    fn u4(&mut self) -> Result<u32, Stop>
        ensures { Gives self.new.cursor result (number w32 self.old.cursor) }
    {
        self.cursor.u4().ok_or(Stop::NoInstruction)
    }

    /// The next n bytes, where they are.
    #[tactic(auto, unfolding(wf_bytes::specs::Reading::run))]
    fn run(&mut self, n: u32) -> Result<&'a [u8], Stop>
        ensures { GivesAs (λ bytes. bytes.now) self.new.cursor result (run n self.old.cursor) }
    {
        self.cursor.take(n).ok_or(Stop::NoInstruction)
    }

    /// Where a switch at the place pc leads, by four bytes.
    #[tactic(auto, unfolding(crate::specs::Decoding::target))]
    fn target(&mut self, pc: u16) -> Result<u16, Stop>
        ensures { Gives self.new.cursor result (target pc self.old.cursor) }
    {
        let far = self.u4()?.cast_signed();
        target_of(pc, far).ok_or(Stop::NoInstruction)
    }

    fn plain(&self, op: u8, a: i32, b: i32) -> Instr
        ensures { result ≡ instr_of op a b }
    {
        Instr {
            op,
            a,
            b,
            cases: Items::new(self.alloc),
        }
    }

    #[tactic(auto, unfolding(crate::specs::Decoding::jump2))]
    fn jump2(&mut self, pc: u16, op: u8) -> Result<Instr, Stop>
        ensures { Gives self.new.cursor result (jump2 pc op self.old.cursor) }
    {
        let far = self.u2()?.cast_signed();
        let target = target_of(pc, far as i32).ok_or(Stop::NoInstruction)?;
        Ok(self.plain(op, target as i32, 0))
    }

    #[tactic(auto, unfolding(crate::specs::Decoding::jump4))]
    fn jump4(&mut self, pc: u16, op: u8) -> Result<Instr, Stop>
        ensures { Gives self.new.cursor result (jump4 pc op self.old.cursor) }
    {
        let target = self.target(pc)?;
        Ok(self.plain(op, target as i32, 0))
    }

    #[tactic(auto, unfolding(crate::specs::Decoding::iinc))]
    fn iinc(&mut self, op: u8) -> Result<Instr, Stop>
        ensures { Gives self.new.cursor result (iinc op self.old.cursor) }
    {
        let local = self.u1()?;
        let constant = self.u1()?.cast_signed();
        Ok(self.plain(op, local as i32, constant as i32))
    }

    #[tactic(auto, unfolding(crate::specs::Decoding::invoke))]
    fn invoke(&mut self, op: u8) -> Result<Instr, Stop>
        ensures { Gives self.new.cursor result (invoke op self.old.cursor) }
    {
        let index = self.u2()?;
        self.run(2)?;
        Ok(self.plain(op, index as i32, 0))
    }

    #[tactic(auto, unfolding(crate::specs::Decoding::new_array))]
    fn new_array(&mut self, op: u8) -> Result<Instr, Stop>
        ensures { Gives self.new.cursor result (new_array op self.old.cursor) }
    {
        let code = self.u1()?;
        if !matches!(code, 4..=11) {
            return Err(Stop::NoInstruction);
        }
        Ok(self.plain(op, code as i32, 0))
    }

    #[tactic(auto, unfolding(crate::specs::Decoding::multi_array))]
    fn multi_array(&mut self, op: u8) -> Result<Instr, Stop>
        ensures { Gives self.new.cursor result (multi_array op self.old.cursor) }
    {
        let index = self.u2()?;
        let count = self.u1()?;
        Ok(self.plain(op, index as i32, count as i32))
    }

    #[tactic(auto, unfolding(crate::specs::Decoding::wide_iinc))]
    fn wide_iinc(&mut self, op: u8) -> Result<Instr, Stop>
        ensures { Gives self.new.cursor result (wide_iinc op self.old.cursor) }
    {
        let local = self.u2()?;
        let constant = self.u2()?.cast_signed();
        Ok(self.plain(op, local as i32, constant as i32))
    }

    #[tactic(auto, unfolding(crate::specs::Decoding::wide_local))]
    fn wide_local(&mut self, op: u8) -> Result<Instr, Stop>
        ensures { (at : ℕ) → Gives self.new.cursor result (wide_local op at self.old.cursor) }
    {
        if !is_widened(op) {
            return Err(Stop::NoInstruction);
        }
        let local = self.u2()?;
        Ok(self.plain(op, local as i32, 0))
    }

    #[tactic(auto, unfolding(crate::specs::Decoding::wide))]
    fn wide(&mut self) -> Result<Instr, Stop>
        ensures { Gives self.new.cursor result (wide self.old.cursor) }
    {
        let op = self.u1()?;
        if op == 0x84 {
            self.wide_iinc(op)
        } else {
            self.wide_local(op)
        }
    }

    /// An entry of a tableswitch for this key.
    #[tactic(auto, unfolding(crate::specs::Decoding::table_case))]
    fn table_case(&mut self, pc: u16, key: i32) -> Result<Case, Stop>
        ensures { GivesAs (λ case. (case, key +ℤ pos 1)) self.new.cursor result (table_case pc key self.old.cursor) }
    {
        let target = self.target(pc)?;
        Ok(Case { key, target })
    }

    /// The entries of a tableswitch. Each is read before there is memory for it.
    #[tactic(auto, using(wf_bytes::proofs::Loops::goes_on_on, crate::proofs::Loops::ends_on, wf_bytes::proofs::Loops::is_done_on))]
    fn table_cases(&mut self, pc: u16, low: i32, high: i32) -> Result<Vec<Case>, Stop>
        requires { low ≤ℤ high }
        ensures { GivesAs (λ cases. (cases.items, low +ℤ pos (entries low high))) self.new.cursor result (many_on (table_case pc) (entries low high) low self.old.cursor) }
    {
        let mut cases = Vec::new(self.alloc);
        let count = u64::from(high.abs_diff(low)) + 1;
        for i in 0..count {
            let key = key_at(low, high, i);
            let case = self.table_case(pc, key)?;
            cases.push(case)?;
        }
        Ok(cases)
    }

    /// What stands behind the opcode of a tableswitch.
    #[tactic(auto, unfolding(crate::specs::Decoding::table_switch))]
    fn table_switch(&mut self, pc: u16, op: u8) -> Result<Instr, Stop>
        ensures { Gives self.new.cursor result (table_switch pc op self.old.cursor) }
    {
        self.run(padding(pc))?;
        let target = self.target(pc)?;
        let low = self.u4()?.cast_signed();
        let high = self.u4()?.cast_signed();
        if high < low {
            return Err(Stop::NoInstruction);
        }
        let cases = self.table_cases(pc, low, high)?;
        Ok(switch(op, target, cases))
    }

    /// A pair of a lookupswitch.
    #[tactic(auto, unfolding(crate::specs::Decoding::lookup_case))]
    fn lookup_case(&mut self, pc: u16) -> Result<Case, Stop>
        ensures { Gives self.new.cursor result (lookup_case pc self.old.cursor) }
    {
        let key = self.u4()?.cast_signed();
        let target = self.target(pc)?;
        Ok(Case { key, target })
    }

    /// The pairs of a lookupswitch. Each is read before there is memory for it.
    #[tactic(auto, using(wf_bytes::proofs::Loops::goes_on, crate::proofs::Loops::ends, wf_bytes::proofs::Loops::is_done))]
    fn lookup_cases(&mut self, pc: u16, count: u32) -> Result<Vec<Case>, Stop>
        ensures { GivesAs (λ cases. cases.items) self.new.cursor result (many (lookup_case pc) count self.old.cursor) }
    {
        let mut cases = Vec::new(self.alloc);
        for _ in 0..count {
            cases.push(self.lookup_case(pc)?)?;
        }
        Ok(cases)
    }

    /// What stands behind the opcode of a lookupswitch.
    #[tactic(auto, unfolding(crate::specs::Decoding::lookup_switch))]
    fn lookup_switch(&mut self, pc: u16, op: u8) -> Result<Instr, Stop>
        ensures { Gives self.new.cursor result (lookup_switch pc op self.old.cursor) }
    {
        self.run(padding(pc))?;
        let target = self.target(pc)?;
        let count = self.u4()?;
        if count > 0x7FFF_FFFF {
            return Err(Stop::NoInstruction);
        }
        let cases = self.lookup_cases(pc, count)?;
        Ok(switch(op, target, cases))
    }

    /// What stands behind the opcode of an instruction with this row, at the place pc.
    #[tactic(auto, unfolding(crate::specs::Decoding::operands))]
    fn operands(&mut self, pc: u16, row: Row) -> Result<Instr, Stop>
        ensures { Gives self.new.cursor result (operands row.form pc row self.old.cursor) }
    {
        let op = row.op;
        match row.form {
            Form::Alone => Ok(self.plain(op, row.value, 0)),
            Form::S1 => {
                let value = self.u1()?.cast_signed();
                Ok(self.plain(op, value as i32, 0))
            }
            Form::S2 => {
                let value = self.u2()?.cast_signed();
                Ok(self.plain(op, value as i32, 0))
            }
            Form::U1 => {
                let value = self.u1()?;
                Ok(self.plain(op, value as i32, 0))
            }
            Form::U2 => {
                let value = self.u2()?;
                Ok(self.plain(op, value as i32, 0))
            }
            Form::Jump2 => self.jump2(pc, op),
            Form::Jump4 => self.jump4(pc, op),
            Form::Iinc => self.iinc(op),
            Form::Invoke => self.invoke(op),
            Form::NewArray => self.new_array(op),
            Form::MultiArray => self.multi_array(op),
            Form::TableSwitch => self.table_switch(pc, op),
            Form::LookupSwitch => self.lookup_switch(pc, op),
            Form::Wide => self.wide(),
        }
    }

    /// The instruction at the place pc.
    #[tactic(auto, unfolding(crate::specs::Decoding::instruction))]
    pub fn instruction(&mut self, pc: u16) -> Result<Instr, Stop>
        ensures { Gives self.new.cursor result (instruction pc self.old.cursor) }
    {
        let opcode = self.u1()?;
        let row = row_of(opcode).ok_or(Stop::NoInstruction)?;
        self.operands(pc, row)
    }

    /// How many bytes were passed.
    pub fn at(&self) -> u32
        ensures { result ≡ self.now.cursor.at }
    {
        self.cursor.at()
    }

    /// Whether no byte is left.
    pub fn is_done(&self) -> bool
        ensures { result ≡ (length self.now.cursor.left == 0) }
    {
        self.cursor.is_done()
    }
}
