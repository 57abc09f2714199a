ghost use Rattle.std.specs.Prelude.{◌≡◌};
ghost use Rattle.wf_classfile.specs.OnlyCode.{and_attribute, only_of};

use wf_data::CodeInfo;

/// The codes among the attributes of a method that were read: more than one are as good as none.
#[derive(Debug, Drop)]
pub enum Codes {
    Missing,
    Single(CodeInfo),
    Several,
}

impl Codes {
    /// With what one more attribute gives.
    pub fn and(self, attribute: Option<CodeInfo>) -> Codes
        ensures { result ≡ and_attribute self attribute }
    {
        match attribute {
            None => self,
            Some(code) => match self {
                Codes::Missing => Codes::Single(code),
                Codes::Single(_) | Codes::Several => Codes::Several,
            },
        }
    }

    /// The code that they leave a method: none in a native or abstract method, exactly one in every other.
    pub fn only(self, is_without: bool) -> Option<Option<CodeInfo>>
        ensures { result ≡ only_of is_without self }
    {
        match self {
            Codes::Missing => is_without.then_some(None),
            Codes::Single(code) => {
                if is_without {
                    return None;
                }
                Some(Some(code))
            }
            Codes::Several => None,
        }
    }
}
