ghost use Rattle.std.specs.Prelude.{◌≡◌, ◌<◌, AllPairs};
ghost use Rattle.std.specs.List.{Contains};
ghost use Rattle.account_cell.specs.declared.account.Account.{Account};
ghost use Rattle.base_bytes.specs.Base.{account_seen, planet_seen, setting_of, universe_of};
ghost use Rattle.base_bytes.specs.Sound.{IsSound};
ghost use Rattle.base_bytes.specs.declared.base.Base.{Base};
ghost use Rattle.base_ids.specs.declared.cell_id.CellId.{CellId};
ghost use Rattle.base_ids.specs.declared.cell_id.CellId.TheVariants.{Account as AccountId, Planet as PlanetId};
ghost use Rattle.laziness.specs.World.{IsBase};
ghost use Rattle.planet_cell.specs.declared.planet.Planet.{Planet};
ghost use Rattle.tick_model.specs.Game.{game};
ghost use Rattle.tick_model.specs.Limits.{KeepsLimits};
ghost use Rattle.tick_model.specs.Moments.{KeepsTime};
ghost use Rattle.tick_model.specs.Views.{nothing_seen, view};
ghost use Rattle.tick_model.specs.World.{base_of};

/// A sound base stands for a universe that is a base of histories. Of each of its accounts and planets the universe shows what
/// the base has of it, and it shows nothing of any other cell. The fleets that it shows of a cell rise strictly by number, and it
/// keeps the limits on queues, units, levels, fields, domes and fleets, and the times of items and fleets. It does nothing: the laws
/// are its contract.
pub fn stands_for_a_universe()
    ensures base { (base : Base) → IsSound base → IsBase (game (setting_of base)) (base_of (universe_of base)) }
    ensures accounts { (base : Base) (account : Account) → IsSound base → Contains base.accounts.items account
        → view (setting_of base).cells (universe_of base).state (AccountId account.player) ≡ account_seen base.fleets account }
    ensures planets { (base : Base) (planet : Planet) → IsSound base → Contains base.planets.items planet
        → view (setting_of base).cells (universe_of base).state (PlanetId planet.at) ≡ planet_seen base.fleets planet }
    ensures others { (base : Base) (cell : CellId) → IsSound base → (Contains (setting_of base).cells cell → ⊥)
        → view (setting_of base).cells (universe_of base).state cell ≡ nothing_seen }
    ensures fleets { (base : Base) (cell : CellId) → IsSound base
        → AllPairs (λ first second. first.number < second.number) (view (setting_of base).cells (universe_of base).state cell).fleets }
    ensures limits { (base : Base) → IsSound base → KeepsLimits (setting_of base) (universe_of base).state }
    ensures time { (base : Base) → IsSound base → KeepsTime base.moment (universe_of base).state }
{}
