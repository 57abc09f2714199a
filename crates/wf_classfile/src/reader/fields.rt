//! Fields and their constants (JVMS 4.5, 4.7.2).

ghost use Rattle.std.specs.Prelude.{◌≡◌, None};
ghost use Rattle.wf_grammar.specs.Reading.{constant_value, other_attribute, field_attribute, field};
ghost use Rattle.wf_bytes.specs.Reading.{many_on, times};
ghost use Rattle.wf_constpool.specs.Readers.{Gives, GivesAs};

use super::{Reader, bad};
use crate::constants::has_constant_of;
use crate::members::Members;
use wf_bytes::Why;
use wf_constpool::{ClassFault, text_at};
use wf_data::{FieldInfo, PoolEntry, is_static};

impl<'a> Reader<'a> {
    /// A ConstantValue behind its name, which stands at a place.
    #[tactic(auto, unfolding(wf_grammar::specs::Reading::constant_value))]
    fn constant_value(
        &mut self,
        pool: &[PoolEntry],
        desc: &[u8],
        constant: Option<u16>,
        named_at: u32,
    ) -> Result<Option<u16>, ClassFault>
        ensures { Gives self.new.cursor result (constant_value pool.now desc.now constant named_at self.old.cursor) }
    {
        if constant.is_some() {
            return Err(bad(named_at, Why::Twice));
        }
        let at = self.at();
        if self.u4()? != 2 {
            return Err(bad(at, Why::Length));
        }
        let at = self.at();
        let place = self.u2()?;
        if !has_constant_of(pool, desc, place) {
            return Err(bad(at, Why::Constant));
        }
        Ok(Some(place))
    }

    /// Another attribute behind its name.
    #[tactic(auto, unfolding(wf_grammar::specs::Reading::other_attribute))]
    fn other_attribute(&mut self, constant: Option<u16>) -> Result<Option<u16>, ClassFault>
        ensures { Gives self.new.cursor result (other_attribute constant self.old.cursor) }
    {
        let size = self.u4()?;
        self.run(size)?;
        Ok(constant)
    }

    /// An attribute of a field, behind those that left this constant.
    #[tactic(auto, unfolding(wf_grammar::specs::Reading::field_attribute))]
    fn field_attribute(
        &mut self,
        pool: &[PoolEntry],
        is_static: bool,
        desc: &[u8],
        constant: Option<u16>,
    ) -> Result<Option<u16>, ClassFault>
        ensures { Gives self.new.cursor result (field_attribute pool.now is_static desc.now constant self.old.cursor) }
    {
        let at = self.at();
        let place = self.u2()?;
        let name = text_at(pool, place).ok_or(bad(at, Why::Index))?;
        if is_static && name == b"ConstantValue".as_slice() {
            self.constant_value(pool, desc, constant, at)
        } else {
            self.other_attribute(constant)
        }
    }

    #[tactic(auto, using(wf_bytes::proofs::Loops::goes_on_times, wf_constpool::proofs::Loops::ends_times, wf_bytes::proofs::Loops::is_done_times))]
    fn field_attributes(
        &mut self,
        pool: &[PoolEntry],
        is_static: bool,
        desc: &[u8],
        count: u16,
    ) -> Result<Option<u16>, ClassFault>
        ensures { Gives self.new.cursor result (times (field_attribute pool.now is_static desc.now) count None self.old.cursor) }
    {
        let mut constant = None;
        for _ in 0..count {
            constant = self.field_attribute(pool, is_static, desc, constant)?;
        }
        Ok(constant)
    }

    #[tactic(auto, unfolding(wf_grammar::specs::Reading::field, wf_bytes::specs::Reading::counted_on))]
    fn field(
        &mut self,
        pool: &[PoolEntry],
        members: &mut Members<'_>,
    ) -> Result<FieldInfo, ClassFault>
        requires { members.old.pool ≡ pool.now }
        ensures reads { GivesAs (λ field. (field, members.new.met)) self.new.cursor result (field pool.now members.old.met self.old.cursor) }
        ensures pool { members.new.pool ≡ pool.now }
    {
        let flags = self.u2()?;
        let at = self.at();
        let place = self.u2()?;
        let name = members.text(place)?.ok_or(bad(at, Why::Index))?;
        if !name.known.is_field_name() {
            return Err(bad(at, Why::Name));
        }
        let at = self.at();
        let place = self.u2()?;
        let desc = members.text(place)?.ok_or(bad(at, Why::Index))?;
        if !desc.known.is_field_descriptor() {
            return Err(bad(at, Why::Descriptor));
        }
        if !members.insert(&name, &desc)? {
            return Err(bad(at, Why::Twice));
        }
        let count = self.u2()?;
        let constant = self.field_attributes(pool, is_static(flags), desc.known.as_slice(), count)?;
        Ok(FieldInfo {
            name: name.known.into_text(),
            desc: desc.known.into_text(),
            flags,
            constant,
        })
    }

    #[tactic(auto, using(wf_bytes::proofs::Loops::goes_on_on, wf_constpool::proofs::Loops::ends_on, wf_bytes::proofs::Loops::is_done_on))]
    pub fn fields(
        &mut self,
        members: &mut Members<'_>,
        count: u16,
    ) -> Result<Vec<FieldInfo>, ClassFault>
        ensures reads { GivesAs (λ fields. (fields.items, members.new.met)) self.new.cursor result (many_on (field members.old.pool) count members.old.met self.old.cursor) }
        ensures pool { members.new.pool ≡ members.old.pool }
    {
        let mut fields = Vec::new(self.alloc);
        let pool = members.pool();
        for _ in 0..count {
            fields.push(self.field(pool, members)?)?;
        }
        Ok(fields)
    }
}
