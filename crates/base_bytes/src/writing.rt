// The bytes of a base, at the end of others. If memory runs out, some of them may be written.
ghost use Rattle.std.specs.Prelude.{◌≡◌, ◌++◌, IfOk, OnOk, map};
ghost use Rattle.std.specs.List.{flat_map};
ghost use Rattle.base_bytes.specs.Spelling.{account_bytes, base_spelling, batch_bytes, building_bytes, counts_bytes, fleet_bytes, flight_bytes, goods_bytes, ground_bytes, load_of, planet_bytes, research_bytes, rules_bytes, stage_number, timing_bytes, works_bytes};
ghost use Rattle.records.specs.Entries.{load_bytes};
ghost use Rattle.fleet_rec.specs.Fleet.{fleet_seen};

use crate::base::Base;
use crate::numbers::{put_coord, put_counts, put_len, put_u8, put_u16, put_u32, put_u64};
use account_cell::{Account, ResearchItem};
use base_text::Bytes;
use fleet_rec::Fleet;
use planet_cell::{Batch, BuildingItem, Planet};
use std::alloc::{AllocError, Global};

/// The bytes that spell a base.
#[tactic(auto, using(crate::proofs::Pieces::whole_base))]
pub fn write(alloc: Global, base: &Base) -> Result<Bytes, AllocError>
    ensures { IfOk result (λ bytes. bytes ≡ base_spelling base.now) }
{
    let mut out = Bytes::new(alloc);
    put_rules(&mut out, base)?;
    put_sizes(&mut out, base)?;
    put_accounts(&mut out, &base.accounts)?;
    put_planets(&mut out, &base.planets)?;
    put_fleets(&mut out, base.fleets.as_slice())?;
    Ok(out)
}

#[tactic(auto, using(records::proofs::Pieces::six_pieces))]
fn put_rules(out: &mut Bytes, base: &Base) -> Result<(), AllocError>
    ensures { OnOk result (out.new ≡ out.old ++ rules_bytes base.now) }
{
    out.push(b"OGBASE01")?;
    put_u64(out, base.seed)?;
    put_u32(out, base.speed)?;
    put_u32(out, base.capacity)?;
    put_u64(out, base.moment)?;
    put_u64(out, base.number)
}

#[tactic(auto, using(records::proofs::Pieces::three_pieces))]
fn put_sizes(out: &mut Bytes, base: &Base) -> Result<(), AllocError>
    ensures { OnOk result (out.new ≡ out.old ++ counts_bytes base.now) }
{
    put_len(out, base.accounts.len())?;
    put_len(out, base.planets.len())?;
    put_len(out, base.fleets.len())
}

#[tactic(auto, using(crate::proofs::Counts::account_more))]
fn put_accounts(out: &mut Bytes, accounts: &[Account]) -> Result<(), AllocError>
    ensures { OnOk result (out.new ≡ out.old ++ flat_map account_bytes accounts.now) }
{
    'accounts: for account in accounts {
        put_account(out, account)?;
    }
    Ok(())
}

#[tactic(auto, using(crate::proofs::Counts::planet_more))]
fn put_planets(out: &mut Bytes, planets: &[Planet]) -> Result<(), AllocError>
    ensures { OnOk result (out.new ≡ out.old ++ flat_map planet_bytes planets.now) }
{
    'planets: for planet in planets {
        put_planet(out, planet)?;
    }
    Ok(())
}

#[tactic(auto, using(crate::proofs::Counts::fleet_more))]
fn put_fleets(out: &mut Bytes, fleets: &[Fleet]) -> Result<(), AllocError>
    ensures { OnOk result (out.new ≡ out.old ++ flat_map fleet_bytes (map fleet_seen fleets.now)) }
{
    'fleets: for fleet in fleets {
        put_fleet(out, fleet)?;
    }
    Ok(())
}

#[tactic(auto, using(crate::proofs::Pieces::five_pieces))]
fn put_account(out: &mut Bytes, account: &Account) -> Result<(), AllocError>
    ensures { OnOk result (out.new ≡ out.old ++ account_bytes account.now) }
{
    put_u32(out, account.player.k)?;
    out.push(&account.techs.n)?;
    put_u32(out, account.units)?;
    put_u8(out, account.research.len() as u8)?;
    put_researches(out, &account.research)
}

#[tactic(auto, using(crate::proofs::Counts::research_more))]
fn put_researches(out: &mut Bytes, items: &[ResearchItem]) -> Result<(), AllocError>
    ensures { OnOk result (out.new ≡ out.old ++ flat_map research_bytes items.now) }
{
    'items: for item in items {
        put_research(out, item)?;
    }
    Ok(())
}

#[tactic(auto, using(crate::proofs::Pieces::five_pieces))]
pub(crate) fn put_research(out: &mut Bytes, item: &ResearchItem) -> Result<(), AllocError>
    ensures { OnOk result (out.new ≡ out.old ++ research_bytes item.now) }
{
    put_u64(out, item.number)?;
    put_u8(out, item.kind.kind.number())?;
    put_coord(out, item.at)?;
    put_u8(out, item.level)?;
    put_u64(out, item.second)
}

#[tactic(auto, using(records::proofs::Pieces::three_pieces))]
fn put_planet(out: &mut Bytes, planet: &Planet) -> Result<(), AllocError>
    ensures { OnOk result (out.new ≡ out.old ++ planet_bytes planet.now) }
{
    put_ground(out, planet)?;
    put_goods(out, planet)?;
    put_works(out, planet)
}

#[tactic(auto, using(records::proofs::Pieces::six_pieces))]
fn put_ground(out: &mut Bytes, planet: &Planet) -> Result<(), AllocError>
    ensures { OnOk result (out.new ≡ out.old ++ ground_bytes planet.now) }
{
    put_coord(out, planet.at)?;
    put_u32(out, planet.owner.k)?;
    put_u16(out, planet.temperature.cast_unsigned())?;
    put_u16(out, planet.fields)?;
    out.push(&planet.levels)?;
    out.push(&planet.tenths)
}

#[tactic(auto, using(records::proofs::Pieces::six_pieces))]
fn put_goods(out: &mut Bytes, planet: &Planet) -> Result<(), AllocError>
    ensures { OnOk result (out.new ≡ out.old ++ goods_bytes planet.now) }
{
    put_u64(out, planet.stock.metal)?;
    put_u64(out, planet.stock.crystal)?;
    put_u64(out, planet.stock.deuterium)?;
    put_u64(out, planet.debris.metal)?;
    put_u64(out, planet.debris.crystal)?;
    put_counts(out, &planet.units)
}

#[tactic(auto, using(records::proofs::Pieces::four_pieces))]
fn put_works(out: &mut Bytes, planet: &Planet) -> Result<(), AllocError>
    ensures { OnOk result (out.new ≡ out.old ++ works_bytes planet.now) }
{
    put_u8(out, planet.buildings.len() as u8)?;
    put_buildings(out, &planet.buildings)?;
    put_u8(out, planet.yard.len() as u8)?;
    put_batches(out, &planet.yard)
}

#[tactic(auto, using(crate::proofs::Counts::building_more))]
fn put_buildings(out: &mut Bytes, items: &[BuildingItem]) -> Result<(), AllocError>
    ensures { OnOk result (out.new ≡ out.old ++ flat_map building_bytes items.now) }
{
    'items: for item in items {
        put_building(out, item)?;
    }
    Ok(())
}

#[tactic(auto, using(records::proofs::Pieces::four_pieces))]
pub(crate) fn put_building(out: &mut Bytes, item: &BuildingItem) -> Result<(), AllocError>
    ensures { OnOk result (out.new ≡ out.old ++ building_bytes item.now) }
{
    put_u64(out, item.number)?;
    put_u8(out, item.kind.kind.number())?;
    put_u8(out, item.level)?;
    put_u64(out, item.second)
}

#[tactic(auto, using(crate::proofs::Counts::batch_more))]
fn put_batches(out: &mut Bytes, batches: &[Batch]) -> Result<(), AllocError>
    ensures { OnOk result (out.new ≡ out.old ++ flat_map batch_bytes batches.now) }
{
    'batches: for batch in batches {
        put_batch(out, batch)?;
    }
    Ok(())
}

#[tactic(auto, using(crate::proofs::Pieces::five_pieces))]
pub(crate) fn put_batch(out: &mut Bytes, batch: &Batch) -> Result<(), AllocError>
    ensures { OnOk result (out.new ≡ out.old ++ batch_bytes batch.now) }
{
    put_u64(out, batch.number)?;
    put_u8(out, batch.kind.kind.number())?;
    put_u32(out, batch.left)?;
    put_u64(out, batch.unit_seconds)?;
    put_u64(out, batch.second)
}

#[tactic(auto, using(records::proofs::Pieces::three_pieces))]
fn put_fleet(out: &mut Bytes, fleet: &Fleet) -> Result<(), AllocError>
    ensures { OnOk result (out.new ≡ out.old ++ fleet_bytes (fleet_seen fleet.now)) }
{
    put_flight(out, fleet)?;
    put_timing(out, fleet)?;
    put_load(out, fleet)
}

#[tactic(auto, using(records::proofs::Pieces::seven_pieces))]
fn put_flight(out: &mut Bytes, fleet: &Fleet) -> Result<(), AllocError>
    ensures { OnOk result (out.new ≡ out.old ++ flight_bytes (fleet_seen fleet.now)) }
{
    put_u64(out, fleet.number)?;
    put_u64(out, fleet.group)?;
    put_u32(out, fleet.owner.k)?;
    put_u8(out, fleet.mission.number())?;
    put_u8(out, stage_number(fleet.outbound))?;
    put_coord(out, fleet.origin)?;
    put_coord(out, fleet.target)
}

#[tactic(auto, using(records::proofs::Pieces::three_pieces))]
fn put_timing(out: &mut Bytes, fleet: &Fleet) -> Result<(), AllocError>
    ensures { OnOk result (out.new ≡ out.old ++ timing_bytes (fleet_seen fleet.now)) }
{
    put_u8(out, fleet.setting.p)?;
    put_u64(out, fleet.launch)?;
    put_u64(out, fleet.second)
}

#[tactic(auto, using(records::proofs::Pieces::four_pieces))]
fn put_load(out: &mut Bytes, fleet: &Fleet) -> Result<(), AllocError>
    ensures { OnOk result (out.new ≡ out.old ++ load_bytes (load_of (fleet_seen fleet.now))) }
{
    put_u64(out, fleet.cargo.m)?;
    put_u64(out, fleet.cargo.c)?;
    put_u64(out, fleet.cargo.d)?;
    put_counts(out, &fleet.ships.n)
}

fn stage_number(outbound: bool) -> u8
    ensures { result ≡ stage_number outbound }
{
    if outbound { 1 } else { 2 }
}
