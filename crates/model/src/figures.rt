//! The four figures of a task.
ghost use Rattle.std.specs.Prelude.{◌≡◌};
ghost use Rattle.model.specs.Bytes.{figures_at};

/// What a task is admitted with, in whole ticks.
#[derive(Clone, Copy, PartialEq, Eq, Debug, Default)]
pub struct Figures {
    /// C: the most ticks that one job is given.
    pub execution: u16,
    /// S: the most ticks that one job waits.
    pub suspension: u16,
    /// D: the deadline, counted from the release.
    pub deadline: u16,
    /// T: the least distance between two releases.
    pub period: u16,
}

/// The figures in 8 bytes: C, S, D, T, 2 bytes each, low byte first.
impl From<[u8; 8]> for Figures {
    ghost from_gives = { λ bytes figures. figures ≡ figures_at bytes 0 };

    fn from(bytes: [u8; 8]) -> Figures {
        Figures {
            execution: u16::from_le_bytes([bytes[0], bytes[1]]),
            suspension: u16::from_le_bytes([bytes[2], bytes[3]]),
            deadline: u16::from_le_bytes([bytes[4], bytes[5]]),
            period: u16::from_le_bytes([bytes[6], bytes[7]]),
        }
    }
}
