ghost use Rattle.std.specs.Prelude.{◌≡◌, All, MatchOption};
ghost use Rattle.catalog.specs.Missions.{mission_word};

use std::fmt;

/// What a fleet is to do at its target. Missions are numbered from 1.
#[derive(Clone, Copy, Debug, PartialEq, Eq)]
pub enum Mission {
    Transport = 1,
    Deploy = 2,
    Harvest = 3,
    Attack = 4,
}

/// All missions, by number.
const MISSIONS: [Mission; 4] = [
    Mission::Transport,
    Mission::Deploy,
    Mission::Harvest,
    Mission::Attack,
];

impl Mission {
    ghost use Rattle.std.specs.Prelude.{◌≡◌, MatchOption};
    ghost use Rattle.catalog.specs.Missions.{mission_number, mission_word};
    ghost use Rattle.catalog.specs.declared.mission.Mission.{Mission};

    /// The number of the mission, 1 to 4.
    pub fn number(self) -> u8
        ensures { result ≡ mission_number self }
    {
        self as u8
    }

    /// The word of the mission.
    pub fn word(self) -> &'static str
        ensures { result.now ≡ mission_word self }
    {
        match self {
            Mission::Transport => "transport",
            Mission::Deploy => "deploy",
            Mission::Harvest => "harvest",
            Mission::Attack => "attack",
        }
    }

    /// The mission of a word. `None` exactly if it is of none.
    #[tactic(auto, using(crate::proofs::Missions::read_listed))]
    pub fn read(word: &[u8]) -> Option<Mission>
        ensures { MatchOption result
            ((mission : Mission) → word.now ≡ mission_word mission → ⊥)
            (λ mission. word.now ≡ mission_word mission) }
    {
        named(&MISSIONS, word)
    }
}

/// The first of these missions that a word names.
fn named(missions: &[Mission], word: &[u8]) -> Option<Mission>
    ensures { MatchOption result
        (All (λ mission. word.now ≡ mission_word mission → ⊥) missions.now)
        (λ mission. word.now ≡ mission_word mission) }
{
    missions
        .iter()
        .find(|mission| mission.word().as_bytes() == word)
        .copied()
}

impl fmt::Display for Mission {
    ghost use Rattle.std.specs.Prelude.{Some};
    ghost use Rattle.catalog.specs.Missions.{mission_word};

    ghost output = { λ mission. Some (mission_word mission) };

    fn fmt<W: fmt::Write>(&self, f: &mut fmt::Formatter<W>) -> fmt::Result {
        write!(f, "{}", self.word())
    }
}
