/// Who has won a battle.
#[derive(Clone, Copy, Debug, PartialEq, Eq)]
pub enum Verdict {
    /// The attackers have units left, the planet has none.
    Attackers,
    /// The planet has units left, the attackers have none.
    Planet,
    /// Both have units left, or neither has.
    Draw,
}

/// How a battle ended: who has won, and how many rounds were fought, 0 to 6.
#[derive(Clone, Copy, Debug, PartialEq, Eq)]
pub struct Outcome {
    pub verdict: Verdict,
    pub rounds: u8,
}
