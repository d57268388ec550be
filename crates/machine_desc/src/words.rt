//! The keys of a table that hold one of a few words.
ghost use Rattle.std.specs.Prelude.{◌≡◌, if◌then◌else◌, codes};
ghost use Rattle.machine_desc.specs.Reads.{Gives};
ghost use Rattle.machine_desc.specs.Kinds.{a_text};
ghost use Rattle.machine_desc.specs.Rows.{form_row, act_row, kind_row};
ghost use Rattle.machine_desc.specs.Cells.{holds};
ghost use Rattle.machine_desc.specs.Work.{act_word, kind_word};

use crate::sheet::Act;
use crate::value::word_in;
use crate::{Amount, DescFault, Section};
use base_words::MoveKind;

#[tactic(auto, unfolding(crate::specs::Cells::cell_at))]
impl Section<'_> {
    /// Whether the key `form` says "raw". It says "elf" where it is absent.
    pub fn is_raw(self) -> Result<bool, DescFault>
        ensures { Gives (λ raw. a_text (if raw then codes "raw" else codes "elf")) result
            (holds self.entry form_row) }
    {
        let key = self.key("form");
        let Some(value) = self.get("form") else {
            return Ok(false);
        };
        match word_in(key, value)? {
            "elf" => Ok(false),
            "raw" => Ok(true),
            other => Err(key.range(Amount::Length(other.len()))),
        }
    }

    /// The act of a work table.
    pub fn act(self) -> Result<Act, DescFault>
        ensures { Gives (λ act. a_text (act_word act)) result (holds self.entry act_row) }
    {
        let key = self.key("act");
        let Some(value) = self.get("act") else {
            return Err(key.missing());
        };
        match word_in(key, value)? {
            "run" => Ok(Act::Run),
            "move" => Ok(Act::Move),
            "fail" => Ok(Act::Fail),
            other => Err(key.range(Amount::Length(other.len()))),
        }
    }

    /// The kind of a move.
    pub fn move_kind(self) -> Result<MoveKind, DescFault>
        ensures { Gives (λ kind. a_text (kind_word kind)) result (holds self.entry kind_row) }
    {
        let key = self.key("kind");
        let Some(value) = self.get("kind") else {
            return Err(key.missing());
        };
        match word_in(key, value)? {
            "migrate" => Ok(MoveKind::Migrate),
            "replicate" => Ok(MoveKind::Replicate),
            "collapse" => Ok(MoveKind::Collapse),
            other => Err(key.range(Amount::Length(other.len()))),
        }
    }
}
