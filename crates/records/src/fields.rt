// The numbers of an entry's bytes, in their order and with their widths. Those that a request has no use for are 0.
ghost use Rattle.std.specs.Prelude.{◌≡◌};
ghost use Rattle.records.specs.Columns.{place_of, order_of, load_of};
ghost use Rattle.records.specs.Entries.{head_of};

use base_ids::Coord;
use request_text::{Entry, Request};

/// A place as it stands in bytes: a coordinate, or a system with position 0, or nothing but zeros.
#[derive(Clone, Copy)]
pub struct Place {
    pub g: u8,
    pub s: u16,
    pub p: u8,
}

/// Which entry it is, when it came, whose it is, and of which form.
#[derive(Clone, Copy)]
pub struct Head {
    pub number: u64,
    pub moment: u64,
    pub reading: u64,
    pub player: u32,
    pub form: u8,
}

/// What is to be done.
#[derive(Clone, Copy)]
pub struct Order {
    pub from: Place,
    pub to: Place,
    pub kind: u8,
    pub mission: u8,
    pub setting: u8,
    pub count: u32,
    pub fleet: u64,
}

/// The cargo and the ships of a fleet.
#[derive(Clone, Copy)]
pub struct Load {
    pub metal: u64,
    pub crystal: u64,
    pub deuterium: u64,
    pub ships: [u32; 13],
}

const NOWHERE: Place = Place { g: 0, s: 0, p: 0 };

const NOTHING: Order = Order {
    from: NOWHERE,
    to: NOWHERE,
    kind: 0,
    mission: 0,
    setting: 0,
    count: 0,
    fleet: 0,
};

impl Place {
    pub fn of(at: Coord) -> Place
        ensures { result ≡ place_of at }
    {
        Place {
            g: at.g,
            s: at.s,
            p: at.p,
        }
    }
}

impl Head {
    pub fn of(entry: &Entry) -> Head
        ensures { result ≡ head_of entry.now }
    {
        Head {
            number: entry.number,
            moment: entry.moment,
            reading: entry.reading,
            player: entry.player.k,
            form: entry.req.form().number(),
        }
    }
}

impl Order {
    pub fn of(req: &Request) -> Order
        ensures { result ≡ order_of req.now }
    {
        match *req {
            Request::Planet(at) => Order {
                from: Place::of(at),
                ..NOTHING
            },
            Request::Account | Request::Fleets => NOTHING,
            Request::System(at) => Order {
                from: Place {
                    g: at.g,
                    s: at.s,
                    p: 0,
                },
                ..NOTHING
            },
            Request::Build(at, building) => Order {
                from: Place::of(at),
                kind: building.kind.number(),
                ..NOTHING
            },
            Request::Research(at, technology) => Order {
                from: Place::of(at),
                kind: technology.kind.number(),
                ..NOTHING
            },
            Request::Yard(at, unit, count) => Order {
                from: Place::of(at),
                kind: unit.kind.number(),
                count: count.n,
                ..NOTHING
            },
            Request::Set(at, work, tenths) => Order {
                from: Place::of(at),
                kind: work.kind.number(),
                setting: tenths.n,
                ..NOTHING
            },
            Request::Send(from, to, mission, setting, _, _) => Order {
                from: Place::of(from),
                to: Place::of(to),
                mission: mission.number(),
                setting: setting.p,
                ..NOTHING
            },
            Request::Join(fleet, from, to, setting, _, _) => Order {
                from: Place::of(from),
                to: Place::of(to),
                setting: setting.p,
                fleet: fleet.f,
                ..NOTHING
            },
            Request::Recall(fleet) => Order {
                fleet: fleet.f,
                ..NOTHING
            },
        }
    }
}

impl Load {
    pub fn of(req: &Request) -> Load
        ensures { result ≡ load_of req.now }
    {
        match *req {
            Request::Send(_, _, _, _, ships, cargo) | Request::Join(_, _, _, _, ships, cargo) => {
                let ships = ships.n;
                Load {
                    metal: cargo.m,
                    crystal: cargo.c,
                    deuterium: cargo.d,
                    ships,
                }
            }
            _ => Load {
                metal: 0,
                crystal: 0,
                deuterium: 0,
                ships: [0; 13],
            },
        }
    }
}
