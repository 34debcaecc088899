//! The numbers that a lane draws. The draws of a lane follow those of the lane before.

const FACTOR: u64 = 1_103_515_245;

const SUMMAND: u64 = 12345;

/// Draws numbers one after another.
#[derive(Clone, Copy, PartialEq, Eq, Debug, Drop)]
pub struct Draws {
    state: u64,
}

impl Draws {
    /// The draws that begin with this number.
    pub fn new(start: u32) -> Draws {
        Draws {
            state: start as u64 % 2_147_483_648,
        }
    }

    /// The next number.
    #[inline]
    pub fn next(&mut self) -> u32 {
        self.state = self.state.wrapping_mul(FACTOR).wrapping_add(SUMMAND) % 2_147_483_648;
        (self.state / 256) as u32
    }

    /// Leaves out so many numbers: at each bit of the count, what that many draws come to.
    pub fn skip(&mut self, count: u64) {
        let (mut factor, mut summand) = (FACTOR, SUMMAND);
        let mut left = count;
        for _ in 0..64 {
            if left % 2 == 1 {
                self.state = self.state.wrapping_mul(factor).wrapping_add(summand) % 2_147_483_648;
            }
            summand = factor.wrapping_mul(summand).wrapping_add(summand);
            factor = factor.wrapping_mul(factor);
            left /= 2;
        }
    }
}
