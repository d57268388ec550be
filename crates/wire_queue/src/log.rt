//! What a pass knows of its wire: seen by contracts alone, so no value of it is made.
use std::marker::Model;

/// What a pass knows: which end it is, whose wire this is, and what went through.
pub struct Log {}

impl Model for Log {
    ghost use Rattle.wire_queue.specs.Logs.{Logged, nothing_known};

    ghost Value = { Logged };

    ghost view = { λ _. nothing_known };
}
