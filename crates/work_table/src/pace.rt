//! How often workers look again, and tell of their moves.

/// Where each machine has a worker, that one looks so often again before it brings it back.
const LOOKS_AGAIN: u32 = 256;

/// A machine that goes on for long counts a change after so many moves, for the machines that wait
/// for it.
const MOVES: u32 = 64;

/// The same where one thread has a machine of its own: each change may wake that thread.
const MOVES_BESIDE: u32 = 96;

/// How often a worker looks again, and tells of its moves.
#[derive(Clone, Copy)]
pub struct Pace {
    /// How often it looks again whether its machine can go on, before it brings it back.
    pub looks: u32,
    /// After how many moves of one machine that goes on for long it counts a change.
    pub moves: u32,
}

impl Pace {
    /// That of so many workers at so many machines. Where there are more machines than workers none
    /// looks again, since another machine may go on.
    pub fn together(workers: usize, machines: usize) -> Pace {
        let looks = if workers < machines { 0 } else { LOOKS_AGAIN };
        Pace {
            looks,
            moves: MOVES,
        }
    }

    /// That of workers where the calling thread has a machine of its own. None looks again.
    pub fn beside() -> Pace {
        Pace {
            looks: 0,
            moves: MOVES_BESIDE,
        }
    }
}
