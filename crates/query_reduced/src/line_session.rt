// A session of a user's line.
ghost use Rattle.std.specs.Prelude.{◌<◌};
ghost use Rattle.model.specs.Line.{SESSIONS};

use model::Line;

// A line and the number of one of its sessions.
#[derive(Clone, Copy)]
pub struct LineSession {
    pub line: Line,
    pub session: usize,
    ghost there: { session < SESSIONS },
}
