//! What the router answers to a frame.

ghost use Rattle.std.specs.Prelude.{◌≡◌};

/// Where a frame was passed to.
#[derive(Clone, Copy, Debug, PartialEq, Eq)]
pub enum Passed {
    /// To this level.
    To(u32),
    /// Back to this level, which sent it.
    Back(u32),
    /// Nowhere: the run ends.
    Stop,
}

/// The tests of a frame, in their order.
#[derive(Clone, Copy, Debug, PartialEq, Eq)]
pub enum Test {
    /// The bytes are those of a frame.
    Spelling,
    /// The level that sent the frame may send its tag.
    Route,
    /// The frame is the next one.
    Turn,
    /// The payload has the bytes of its row.
    Length,
    /// The journal has room.
    Room,
}

/// A level sent what it may not send.
#[derive(Clone, Copy, Debug, PartialEq, Eq)]
pub struct BadUplink {
    /// The first test that failed.
    pub test: Test,
}

impl From<Test> for BadUplink {
    ghost from_gives = { λ test bad. bad.test ≡ test };

    fn from(test: Test) -> BadUplink {
        BadUplink { test }
    }
}
