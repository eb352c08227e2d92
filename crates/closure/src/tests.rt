// What no clause says: the cells of a small universe, looked up by a fake.
ghost use Rattle.std.specs.Prelude.{◌≡◌, ◌≤◌, ◌&&◌, ◌∷◌, [], List, Option, Some, None, if◌then◌else◌, nat_le, pos};
ghost use Rattle.std.proofs.Common.{rules};
ghost use Rattle.base_ids.specs.Cells.{same_cell};
ghost use Rattle.base_ids.specs.declared.cell_id.CellId.TheVariants.{Planet};
ghost use Rattle.catalog.specs.declared.kind.Kind.TheVariants.{Energy};
ghost use Rattle.tick_model.specs.Universe.{Item, Researches, of_account, of_planet, same_class};
ghost use Rattle.closure.specs.Lists.{has};
ghost use Rattle.closure.specs.Closure.{AreBrought};

use crate::{CellLook, Ids, Needed, Places, Spot, asked, needed};
use base_ids::{CellId, Coord, FleetNumber, Player};
use catalog::{Class, Count, Kind, Technology, Unit};
use request_text::Request;
use std::alloc::{AllocError, Global};
use std::process::Abort;
use std::test::Fail;

// Holds one planet and some accounts. Each account researches until a second, paid by its lab, and then on a planet that is to
// pay.
#[derive(Drop)]
struct Fake {
    planet: Spot,
    accounts: Ids,
    until: u64,
    lab: Coord,
    payer: Coord,
}

impl CellLook for Fake {
    ghost sees = { λ look id.
        if same_cell id (Planet look.planet.at)
        then Some (record {
          own = of_planet (record {
            owner = look.planet.owner;
            temperature = pos 0;
            fields = 163;
            levels = [];
            tenths = [];
            stock = record { metal = 0; crystal = 0; deuterium = 0 };
            debris = record { metal = 0; crystal = 0 };
            units = [];
          });
          queue = λ class. [];
          fleets = [];
          planets = [];
          units = 0;
        })
        else if has look.accounts id
        then Some (record {
          own = of_account (record { techs = record { n = [] } });
          queue = λ class.
              if same_class class Researches
              then record { number = 1; cell = id; class = class; kind = Energy; place = look.lab; level = 1; left = 0; unit_seconds = 0; second = look.until }
              ∷ record { number = 2; cell = id; class = class; kind = Energy; place = look.payer; level = 0; left = 0; unit_seconds = 0; second = 0 }
              ∷ []
              else [];
          fleets = [];
          planets = [];
          units = 0;
        })
        else None };

    ghost names = { λ look. Planet look.planet.at ∷ look.accounts };

    #[tactic(auto, using(crate::proofs::Sameness::same_cell_swap))]
    fn holds(&self, id: CellId) -> bool {
        id == CellId::Planet(self.planet.at) || self.accounts.contains(id)
    }

    fn flown(
        &self,
        _alloc: Global,
        _player: Player,
        _number: FleetNumber,
    ) -> Result<Option<Ids>, AllocError> {
        Ok(None)
    }

    #[tactic(auto, using(crate::proofs::Sameness::same_cell_swap))]
    fn next(&self, alloc: Global, id: CellId, moment: u64) -> Result<Option<Ids>, AllocError> {
        let mut brought = Ids::new(alloc);
        if id == CellId::Planet(self.planet.at) {
            brought.push(CellId::Account(self.planet.owner))?;
            return Ok(Some(brought));
        }
        if !self.accounts.contains(id) {
            return Ok(None);
        }
        if self.until <= moment {
            brought.push(CellId::Planet(self.payer))?;
        }
        Ok(Some(brought))
    }

    ghost named = { λ look id seen is. Prim.search rules };
}

const AT: Coord = Coord { g: 1, s: 2, p: 3 };

const LAB: Coord = Coord { g: 1, s: 2, p: 4 };

// The planet of player 2, and the accounts of these. They research until second 8 on a planet that isn't held, and then the
// planet of player 2 is to pay.
fn make_fake(alloc: Global, accounts: &[CellId]) -> Result<Fake, AllocError> {
    Ok(Fake {
        planet: Spot {
            at: AT,
            owner: Player { k: 2 },
        },
        accounts: Ids::new(alloc).joined(accounts)?,
        until: 8,
        lab: LAB,
        payer: AT,
    })
}

// The answer has exactly these cells, in this order.
fn expect_cells(rt: &impl Abort, ids: &Ids, want: &[CellId]) {
    assert_eq!(rt; ids.len(), want.len());
    assert_eq!(rt; ids.as_slice(), want);
}

#[test]
fn a_planet_needs_its_owner(rt: HostRuntime) -> Result<(), Fail> {
    let one = CellId::Account(Player { k: 1 });
    let two = CellId::Account(Player { k: 2 });
    let three = CellId::Account(Player { k: 3 });
    let planet = CellId::Planet(AT);
    let look = make_fake(rt.alloc(), &[one, three, two])?;
    let cases: [(&[CellId], &[CellId]); 5] = [
        (&[one, planet], &[one, planet, two]),
        (&[planet], &[planet, two]),
        (&[two, planet, two], &[two, planet]),
        (&[three], &[three]),
        (&[], &[]),
    ];
    for (asked, want) in cases {
        let asked = Ids::new(rt.alloc()).joined(asked)?;
        match needed(rt.alloc(), &look, &asked, 7)? {
            Needed::Closed(ids) => expect_cells(&rt, &ids, want),
            Needed::Missing(_) => assert!(rt; false),
        }
    }
    Ok(())
}

#[test]
fn research_that_is_done_needs_who_is_to_pay_the_next(rt: HostRuntime) -> Result<(), Fail> {
    let two = CellId::Account(Player { k: 2 });
    let three = CellId::Account(Player { k: 3 });
    let look = make_fake(rt.alloc(), &[two, three])?;
    let cases: [(u64, &[CellId]); 3] = [
        (7, &[three]),
        (8, &[three, CellId::Planet(AT), two]),
        (9, &[three, CellId::Planet(AT), two]),
    ];
    for (moment, want) in cases {
        let asked = Ids::new(rt.alloc()).joined(&[three])?;
        match needed(rt.alloc(), &look, &asked, moment)? {
            Needed::Closed(ids) => expect_cells(&rt, &ids, want),
            Needed::Missing(_) => assert!(rt; false),
        }
    }
    Ok(())
}

#[test]
fn a_cell_that_is_not_held_is_missing(rt: HostRuntime) -> Result<(), Fail> {
    let one = CellId::Account(Player { k: 1 });
    let two = CellId::Account(Player { k: 2 });
    let planet = CellId::Planet(AT);
    let empty = CellId::Planet(Coord { g: 1, s: 2, p: 4 });
    let look = make_fake(rt.alloc(), &[one])?;
    let cases: [(&[CellId], CellId); 3] = [
        (&[one, planet], two),
        (&[two, planet], two),
        (&[one, empty, planet], empty),
    ];
    for (asked, want) in cases {
        let asked = Ids::new(rt.alloc()).joined(asked)?;
        match needed(rt.alloc(), &look, &asked, 7)? {
            Needed::Closed(_) => assert!(rt; false),
            Needed::Missing(ids) => expect_cells(&rt, &ids, &[want]),
        }
    }
    Ok(())
}

// Players 1 and 2, and a planet of player 2.
fn make_places(alloc: Global) -> Result<Places, AllocError> {
    Ok(Places {
        players: vec![in alloc; Player { k: 1 }, Player { k: 2 }]?,
        planets: vec![in alloc;
            Spot {
                at: AT,
                owner: Player { k: 2 }
            },
        ]?,
    })
}

#[test]
fn a_request_asks_for_its_caller_and_its_place(rt: HostRuntime) -> Result<(), Fail> {
    let look = make_fake(rt.alloc(), &[])?;
    let places = make_places(rt.alloc())?;
    let first = Player { k: 1 };
    let one = CellId::Account(first);
    let elsewhere = Coord { g: 1, s: 2, p: 4 };
    let laser = Technology::of(Kind::Laser).ok_or("no technology")?;
    let probe = Unit::of(Kind::Probe).ok_or("no unit")?;
    let count = Count { n: 3 };
    let cases: [(Player, Request, &[CellId]); 7] = [
        (first, Request::Planet(AT), &[one, CellId::Planet(AT)]),
        (first, Request::Planet(elsewhere), &[one]),
        (Player { k: 3 }, Request::Planet(AT), &[]),
        (first, Request::Account, &[one]),
        (
            first,
            Request::Research(AT, laser),
            &[one, CellId::Planet(AT)],
        ),
        (
            first,
            Request::Yard(AT, probe, count),
            &[one, CellId::Planet(AT)],
        ),
        (first, Request::Fleets, &[one]),
    ];
    for (player, req, want) in cases {
        match asked(rt.alloc(), &places, &look, player, &req)? {
            Needed::Closed(ids) => expect_cells(&rt, &ids, want),
            Needed::Missing(_) => assert!(rt; false),
        }
    }
    Ok(())
}
