//! The law between writing and reading reports.

ghost use Rattle.std.specs.Prelude.{◌≡◌, ℕ, ◌^◌, ◌<◌, List, Ok, length};
ghost use Rattle.wf_names.specs.declared.world.World.{World};
ghost use Rattle.wf_report.specs.Reading.{world_of};
ghost use Rattle.wf_report.specs.Report.{report_text};
ghost use Rattle.wf_report.specs.Worlds.{HasText, IsOfBytes};

use wf_lines::{decimals_are_read_back, members_are_read_back, words_are_read_back};
use wf_names::names_are_read_back;

/// What is read as a world is the full text of that world, which has one. The full text of a world is read as that
/// world, so it belongs to no other.
pub fn reports_are_read_back()
    ensures read { (text : List ℕ) (world : World) → world_of text ≡ Ok world → HasText world × (report_text world ≡ text) }
    ensures written { (world : World) → HasText world → IsOfBytes world → length (report_text world) < 2 ^ 64 → world_of (report_text world) ≡ Ok world }
{
    names_are_read_back();
    members_are_read_back();
    decimals_are_read_back();
    words_are_read_back();
}
