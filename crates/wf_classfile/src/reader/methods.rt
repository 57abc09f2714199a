//! Methods and their code (JVMS 4.6, 4.7.3).

ghost use Rattle.std.specs.Prelude.{◌≡◌, not, ◌&&◌, ◌==◌, nat_lt};
ghost use Rattle.wf_classfile.specs.declared.codes.Codes.TheVariants.{Missing};
ghost use Rattle.wf_classfile.specs.OnlyCode.{with_codes, GivesOnly};
ghost use Rattle.wf_bytes.specs.Reading.{many, many_on, whole};
ghost use Rattle.wf_grammar.specs.Reading.{handler, code, method_attribute_as, method_attribute, method};
ghost use Rattle.wf_constpool.specs.Readers.{Gives, GivesAs, GivesValue};

use super::{Reader, bad};
use crate::codes::Codes;
use crate::members::Members;
use wf_base::Items;
use wf_bytes::Why;
use wf_constpool::{ClassFault, text_at};
use wf_data::{CodeInfo, Handler, MethodInfo, PoolEntry, is_native_or_abstract};

impl<'a> Reader<'a> {
    #[tactic(auto, unfolding(wf_grammar::specs::Reading::handler))]
    fn handler(&mut self) -> Result<Handler, ClassFault>
        ensures { Gives self.new.cursor result (handler self.old.cursor) }
    {
        let start = self.u2()?;
        let end = self.u2()?;
        let target = self.u2()?;
        let catch_class = self.u2()?;
        Ok(Handler {
            start,
            end,
            target,
            catch_class,
        })
    }

    #[tactic(auto, using(wf_bytes::proofs::Loops::goes_on, wf_constpool::proofs::Loops::ends, wf_bytes::proofs::Loops::is_done))]
    fn handlers(&mut self, count: u16) -> Result<Vec<Handler>, ClassFault>
        ensures { GivesAs (λ table. table.items) self.new.cursor result (many handler count self.old.cursor) }
    {
        let mut table = Vec::new(self.alloc);
        for _ in 0..count {
            table.push(self.handler()?)?;
        }
        Ok(table)
    }

    /// The inside of a Code attribute (JVMS 4.7.3).
    #[tactic(auto, unfolding(wf_grammar::specs::Reading::code, wf_bytes::specs::Reading::counted, wf_bytes::specs::Reading::counted_on))]
    fn code(&mut self, pool: &[PoolEntry]) -> Result<CodeInfo, ClassFault>
        ensures { Gives self.new.cursor result (code pool.now self.old.cursor) }
    {
        let max_stack = self.u2()?;
        let max_locals = self.u2()?;
        let at = self.at();
        let size = self.u4()?;
        if !is_code_size(size) {
            return Err(bad(at, Why::Code));
        }
        let code = self.text(size)?;
        let count = self.u2()?;
        let table = self.handlers(count)?;
        let count = self.u2()?;
        self.skip_attributes(pool, count)?;
        Ok(CodeInfo {
            max_stack,
            max_locals,
            code,
            table: Items::from_vec(table),
        })
    }

    /// The inside of a Code attribute, all of it. The attribute's length stands at a place.
    fn whole_code(mut self, pool: &[PoolEntry], at: u32) -> Result<CodeInfo, ClassFault>
        ensures { GivesValue result (whole at (code pool.now self.entry.cursor)) }
    {
        match self.code(pool) {
            Ok(code) if self.cursor.is_done() => Ok(code),
            Ok(_) => Err(bad(at, Why::Length)),
            Err(ClassFault::Bad { why: Why::Cut, .. }) => Err(bad(at, Why::Length)),
            Err(fault) => Err(fault),
        }
    }

    /// The inside of an attribute of a method, by whether it is a Code.
    #[tactic(auto, unfolding(wf_grammar::specs::Reading::method_attribute_as))]
    fn method_attribute_as(
        self,
        pool: &[PoolEntry],
        is_code: bool,
        at: u32,
    ) -> Result<Option<CodeInfo>, ClassFault>
        ensures { GivesValue result (method_attribute_as pool.now is_code at self.entry.cursor) }
    {
        if !is_code {
            return Ok(None);
        }
        Ok(Some(self.whole_code(pool, at)?))
    }

    #[tactic(auto, unfolding(wf_grammar::specs::Reading::method_attribute))]
    fn method_attribute(&mut self, pool: &[PoolEntry]) -> Result<Option<CodeInfo>, ClassFault>
        ensures { Gives self.new.cursor result (method_attribute pool.now self.old.cursor) }
    {
        let at = self.at();
        let place = self.u2()?;
        let name = text_at(pool, place).ok_or(bad(at, Why::Index))?;
        let at = self.at();
        let size = self.u4()?;
        let inside = self.part(size)?;
        inside.method_attribute_as(pool, name == b"Code".as_slice(), at)
    }

    /// The codes among so many attributes.
    #[tactic(auto, using(crate::proofs::CodeLaws::goes_on, crate::proofs::CodeLaws::ends, crate::proofs::CodeLaws::is_done))]
    fn method_attributes(&mut self, pool: &[PoolEntry], count: u16) -> Result<Codes, ClassFault>
        ensures { Gives self.new.cursor result (with_codes Missing (many (method_attribute pool.now) count self.old.cursor)) }
    {
        let mut codes = Codes::Missing;
        for _ in 0..count {
            let attribute = self.method_attribute(pool)?;
            codes = codes.and(attribute);
        }
        Ok(codes)
    }

    /// The code that so many attributes leave a method, which is without one or has exactly one.
    #[tactic(auto, using(crate::proofs::CodeLaws::leave, crate::proofs::CodeLaws::fail))]
    fn only_code(
        &mut self,
        pool: &[PoolEntry],
        count: u16,
        is_without: bool,
    ) -> Result<Option<Option<CodeInfo>>, ClassFault>
        ensures { GivesOnly is_without self.new.cursor result (many (method_attribute pool.now) count self.old.cursor) }
    {
        let codes = self.method_attributes(pool, count)?;
        Ok(codes.only(is_without))
    }

    #[tactic(auto, unfolding(wf_grammar::specs::Reading::method, wf_bytes::specs::Reading::counted))]
    fn method(
        &mut self,
        pool: &[PoolEntry],
        members: &mut Members<'_>,
    ) -> Result<MethodInfo, ClassFault>
        requires { members.old.pool ≡ pool.now }
        ensures reads { GivesAs (λ method. (method, members.new.met)) self.new.cursor result (method pool.now members.old.met self.old.cursor) }
        ensures pool { members.new.pool ≡ pool.now }
    {
        let start = self.at();
        let flags = self.u2()?;
        let at = self.at();
        let place = self.u2()?;
        let name = members.text(place)?.ok_or(bad(at, Why::Index))?;
        if !name.known.is_method_name() {
            return Err(bad(at, Why::Name));
        }
        let at = self.at();
        let place = self.u2()?;
        let desc = members.text(place)?.ok_or(bad(at, Why::Index))?;
        if !desc.known.is_method_descriptor(flags) {
            return Err(bad(at, Why::Descriptor));
        }
        if !members.insert(&name, &desc)? {
            return Err(bad(at, Why::Twice));
        }
        let count = self.u2()?;
        let code = self
            .only_code(pool, count, is_native_or_abstract(flags))?
            .ok_or(bad(start, Why::Code))?;
        Ok(MethodInfo {
            name: name.known.into_text(),
            desc: desc.known.into_text(),
            flags,
            code,
        })
    }

    #[tactic(auto, using(wf_bytes::proofs::Loops::goes_on_on, wf_constpool::proofs::Loops::ends_on, wf_bytes::proofs::Loops::is_done_on))]
    pub fn methods(
        &mut self,
        members: &mut Members<'_>,
        count: u16,
    ) -> Result<Vec<MethodInfo>, ClassFault>
        ensures reads { GivesAs (λ methods. (methods.items, members.new.met)) self.new.cursor result (many_on (method members.old.pool) count members.old.met self.old.cursor) }
        ensures pool { members.new.pool ≡ members.old.pool }
    {
        let mut methods = Vec::new(self.alloc);
        let pool = members.pool();
        for _ in 0..count {
            methods.push(self.method(pool, members)?)?;
        }
        Ok(methods)
    }
}

fn is_code_size(size: u32) -> bool
    ensures { result ≡ (not (size == 0) && nat_lt size 65536) }
{
    size != 0 && size < 65536
}
