//! What comes of bytes that are fed.

/// How a call and the slow reader answer.
#[derive(Clone, Copy)]
pub enum Verdict {
    /// Both read them, as the same.
    Accepted,
    /// Both refuse them, for the same.
    Refused,
    /// They answer differently.
    Differs,
}

impl Verdict {
    /// The verdict on answers that are the same or not, where both accept.
    pub fn accepted_if(is_same: bool) -> Verdict {
        if is_same {
            Verdict::Accepted
        } else {
            Verdict::Differs
        }
    }

    /// The same where both refuse.
    pub fn refused_if(is_same: bool) -> Verdict {
        if is_same {
            Verdict::Refused
        } else {
            Verdict::Differs
        }
    }
}

/// How many answers there were of each verdict.
#[derive(Clone, Copy)]
pub struct Tally {
    pub accepted: u64,
    pub refused: u64,
    pub differs: u64,
}

impl Tally {
    pub fn new() -> Tally {
        Tally {
            accepted: 0,
            refused: 0,
            differs: 0,
        }
    }

    pub fn count(&mut self, verdict: Verdict) {
        let count = match verdict {
            Verdict::Accepted => &mut self.accepted,
            Verdict::Refused => &mut self.refused,
            Verdict::Differs => &mut self.differs,
        };
        *count = count.saturating_add(1);
    }
}
