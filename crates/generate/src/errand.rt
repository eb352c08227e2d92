ghost use Rattle.std.specs.Prelude.{◌≡◌, ◌∷◌, [], codes};
ghost use Rattle.std.specs.Fmt.{decimal};
ghost use Rattle.catalog.specs.Kinds.{kind_word};
ghost use Rattle.catalog.specs.Missions.{mission_word};
ghost use Rattle.catalog.specs.Texts.{ships_text};
ghost use Rattle.catalog.specs.declared.classes.TheConstants.{BUILDINGS, TECHNOLOGIES, UNIT_KINDS};
ghost use Rattle.draws.specs.Draws.{after};
ghost use Rattle.generate.specs.Errands.{drawn_kind};
ghost use Rattle.generate.specs.Homes.{drawn_home, home_text};
ghost use Rattle.request_text.specs.Words.{request_words};

use crate::home::Home;
use base_ids::FleetNumber;
use catalog::{
    Amounts, BUILDINGS, Building, Count, Mission, Ships, SpeedSetting, TECHNOLOGIES, Technology,
    UNIT_KINDS, Unit,
};
use draws::Draws;
use request_text::Request;

/// What a line asks for.
#[derive(Clone, Copy)]
pub enum Errand {
    Planet,
    Account,
    Fleets,
    System,
    Build,
    Research,
    Yard,
    Transport,
    Attack,
    Recall,
}

/// All errands, by the number that draws them.
pub const ERRANDS: [Errand; 10] = [
    Errand::Planet,
    Errand::Account,
    Errand::Fleets,
    Errand::System,
    Errand::Build,
    Errand::Research,
    Errand::Yard,
    Errand::Transport,
    Errand::Attack,
    Errand::Recall,
];

/// What a transport has on board: 100 units of metal.
const GIFT: Amounts = Amounts { m: 100, c: 0, d: 0 };

/// What an attack has on board at its start.
const NOTHING: Amounts = Amounts { m: 0, c: 0, d: 0 };

/// The ships of a transport: a small cargo.
const CARRIER: Ships = Ships {
    n: [1, 0, 0, 0, 0, 0, 0, 0, 0, 0, 0, 0, 0],
};

/// The ships of an attack: five light fighters.
const FIGHTERS: Ships = Ships {
    n: [0, 0, 5, 0, 0, 0, 0, 0, 0, 0, 0, 0, 0],
};

impl Errand {
    ghost use Rattle.std.specs.Prelude.{◌≡◌, ◌≤◌};
    ghost use Rattle.draws.specs.Draws.{after};
    ghost use Rattle.generate.specs.Errands.{errand_words, own_draws};
    ghost use Rattle.request_text.specs.Words.{request_words};

    /// The request of the line of this number, of the player who lives at `home`.
    #[tactic(auto, unfolding(draws::specs::Draws::after))]
    pub fn request(self, number: u32, home: Home, draws: &mut Draws) -> Request
        requires { 1 ≤ number }
        ensures words { request_words result ≡ errand_words self number home.player home.position draws.old }
        ensures moves { draws.new ≡ after (own_draws self) draws.old }
    {
        match self {
            Errand::Planet => Request::Planet(home.coord()),
            Errand::Account => Request::Account,
            Errand::Fleets => Request::Fleets,
            Errand::System => Request::System(home.system()),
            Errand::Build => Request::Build(home.coord(), next_building(draws)),
            Errand::Research => Request::Research(home.coord(), next_technology(draws)),
            Errand::Yard => {
                let unit = next_ship(draws);
                let n = 1 + draws.below(3);
                Request::Yard(home.coord(), unit, Count { n })
            }
            Errand::Transport => send(home, Mission::Transport, CARRIER, GIFT, draws),
            Errand::Attack => send(home, Mission::Attack, FIGHTERS, NOTHING, draws),
            Errand::Recall => {
                let f = 1 + u64::from(draws.below(number));
                Request::Recall(FleetNumber { f })
            }
        }
    }
}

/// Ships leave at full speed for a planet that is drawn.
fn send(home: Home, mission: Mission, ships: Ships, cargo: Amounts, draws: &mut Draws) -> Request
    ensures words { request_words result
        ≡ codes "send" ∷ home_text home.player home.position ∷ drawn_home draws.old ∷ mission_word mission
        ∷ decimal 10 ∷ ships_text ships.n ∷ decimal cargo.m ∷ decimal cargo.c ∷ decimal cargo.d ∷ [] }
    ensures moves { draws.new ≡ after 2 draws.old }
{
    let target = Home::next(draws);
    let setting = SpeedSetting { p: 10 };
    Request::Send(home.coord(), target.coord(), mission, setting, ships, cargo)
}

/// A building, by the next word.
#[tactic(auto, unfolding(draws::specs::Draws::after))]
fn next_building(draws: &mut Draws) -> Building
    ensures kind { kind_word result.kind ≡ drawn_kind BUILDINGS 11 draws.old }
    ensures moves { draws.new ≡ after 1 draws.old }
{
    Building {
        kind: BUILDINGS[draws.below(11) as usize],
    }
}

/// A technology, by the next word.
#[tactic(auto, unfolding(draws::specs::Draws::after))]
fn next_technology(draws: &mut Draws) -> Technology
    ensures kind { kind_word result.kind ≡ drawn_kind TECHNOLOGIES 14 draws.old }
    ensures moves { draws.new ≡ after 1 draws.old }
{
    Technology {
        kind: TECHNOLOGIES[draws.below(14) as usize],
    }
}

/// A kind of ship, by the next word.
#[tactic(auto, unfolding(draws::specs::Draws::after))]
fn next_ship(draws: &mut Draws) -> Unit
    ensures kind { kind_word result.kind ≡ drawn_kind UNIT_KINDS 14 draws.old }
    ensures moves { draws.new ≡ after 1 draws.old }
{
    Unit {
        kind: UNIT_KINDS[draws.below(14) as usize],
    }
}
