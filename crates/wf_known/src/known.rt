//! What is known in front of a place, as the rows of the place take it.

ghost use Rattle.std.specs.Prelude.{◌≡◌};
ghost use Rattle.wf_known.specs.Fronts.{known_of};

use crate::front::Front;
use wf_base::MethodId;
use wf_rows::Known;

impl Front {
    /// The same, where the place stands so many bytes from the start of the method's code.
    pub fn known(&self, method: MethodId, pc: u16) -> Known<'_>
        ensures { result ≡ known_of method pc self.now }
    {
        Known {
            method,
            pc,
            predicate: self.predicate,
            slots: self.slots.as_slice(),
        }
    }
}
