ghost use Rattle.std.specs.Prelude.{◌≡◌, ℕ, ◌≤◌, length, take, vec_len};
ghost use Rattle.wf_classes.specs.Closing.{kept_of};

use wf_data::ClassInfo;

/// Moves the classes that wait for nothing to the front, in the order in which they stand, and says how many
/// these are.
fn move_to_front(files: &mut [ClassInfo], waiting: &[usize]) -> usize
    requires { length waiting.now ≡ length files.old }
    ensures within { result ≤ length files.old }
    ensures front { take result files.new ≡ kept_of waiting.now files.old }
{
    let mut kept = 0;
    for i in 0..files.len() {
        if waiting[i] == 0 {
            files.swap(kept, i);
            kept += 1;
        }
    }
    kept
}

/// Drops the classes that wait for something.
pub fn keep_loadable(files: &mut Vec<ClassInfo>, waiting: &[usize])
    requires { length waiting.now ≡ vec_len files.old }
    ensures { files.new.items ≡ kept_of waiting.now files.old.items }
{
    let kept = move_to_front(files.as_mut_slice(), waiting);
    files.truncate(kept);
}
