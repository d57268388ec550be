//! The open move of a page.
ghost use Rattle.std.specs.Prelude.{◌≡◌, option_map};
ghost use Rattle.base_words.specs.declared.ids.FrameNo.{FrameNo};
ghost use Rattle.private_machine.specs.Backing.{Copy};
ghost use Rattle.private_machine.specs.PageMove.{kind_of, target_of};
ghost use Rattle.pmap_table.specs.declared.open_move.Change.TheVariants.{TakeShared};
ghost use Rattle.pmap_table.specs.OpenMoves.{change_of, move_of, told, TakesPage};
ghost use Rattle.pmap_table.specs.Tracking.{is_taking};

use base_words::{Frame, FrameNo, MoveKind, ProcSet, SharedFrame};

/// What a move does, with its target where it has one.
#[derive(Drop)]
pub enum Change {
    Migrate(Frame),
    Replicate(Frame),
    Collapse,
    Break(Frame),
    TakeShared(SharedFrame),
    GiveShared(Frame),
}

/// A move that has begun and isn't done, and the processors that haven't acknowledged it.
#[derive(Drop)]
pub(crate) struct PendingMove {
    pub(crate) change: Change,
    pub(crate) waiting: ProcSet,
}

/// The kind of a page's open move, and the processors that haven't acknowledged it.
#[derive(Debug, PartialEq, Drop)]
pub struct OpenMove {
    pub kind: MoveKind,
    pub waiting: ProcSet,
}

impl Change {
    pub(crate) fn kind(&self) -> MoveKind
        ensures { result ≡ kind_of (change_of self.now) }
    {
        match self {
            Change::Migrate(_) => MoveKind::Migrate,
            Change::Replicate(_) => MoveKind::Replicate,
            Change::Collapse => MoveKind::Collapse,
            Change::Break(_) => MoveKind::Break,
            Change::TakeShared(_) => MoveKind::TakeShared,
            Change::GiveShared(_) => MoveKind::GiveShared,
        }
    }

    /// The frame that is to back the page, or to become a spare.
    pub(crate) fn target(&self) -> Option<FrameNo>
        ensures { option_map (λ (f : FrameNo). f.0) result
            ≡ option_map (λ (c : Copy). c.frame) (target_of (change_of self.now)) }
    {
        match self {
            Change::Migrate(frame)
            | Change::Replicate(frame)
            | Change::Break(frame)
            | Change::GiveShared(frame) => Some(frame.number),
            Change::TakeShared(frame) => Some(frame.number),
            Change::Collapse => None,
        }
    }
}

impl Change {
    /// The frame that is taken shared.
    pub(crate) fn into_shared(self) -> SharedFrame
        requires { TakesPage self }
        ensures { self ≡ TakeShared result }
    {
        match self {
            Change::TakeShared(frame) => frame,
            Change::Migrate(_)
            | Change::Replicate(_)
            | Change::Collapse
            | Change::Break(_)
            | Change::GiveShared(_) => unreachable!(),
        }
    }

    /// Whether its own operation ends the move.
    pub(crate) fn is_taking(&self) -> bool
        ensures { result ≡ is_taking (change_of self.now) }
    {
        matches!(self, Change::TakeShared(_))
    }
}

impl PendingMove {
    /// What is told of the move.
    pub(crate) fn told(&self) -> OpenMove
        ensures { result ≡ told (move_of self.now) }
    {
        OpenMove {
            kind: self.change.kind(),
            waiting: self.waiting,
        }
    }
}
