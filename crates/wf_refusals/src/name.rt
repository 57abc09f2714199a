//! What methods are refused for by their names.

ghost use Rattle.std.specs.Prelude.{◌≡◌};
ghost use Rattle.wf_refusals.specs.Refusals.{is_reflection, is_by_name, starts_thread, listed_refusal};

use wf_data::What;

fn is_reflection(class: &[u8]) -> bool
    ensures { result ≡ is_reflection class.now }
{
    class.starts_with(b"java/lang/reflect/") || class.starts_with(b"java/lang/invoke/")
}

fn is_by_name(class: &[u8], name: &[u8]) -> bool
    ensures { result ≡ is_by_name class.now name.now }
{
    class == b"java/lang/Class".as_slice()
        && (name == b"forName".as_slice() || name == b"newInstance".as_slice())
}

fn starts_thread(class: &[u8], name: &[u8]) -> bool
    ensures { result ≡ starts_thread class.now name.now }
{
    class == b"java/lang/Thread".as_slice() && name == b"start".as_slice()
}

/// As what a method is refused by the names of its class and its own, whatever its code.
pub fn listed_refusal(class: &[u8], name: &[u8]) -> Option<What>
    ensures { result ≡ listed_refusal class.now name.now }
{
    if is_reflection(class) || is_by_name(class, name) {
        return Some(What::Reflection);
    }
    if starts_thread(class, name) {
        return Some(What::Thread);
    }
    None
}
