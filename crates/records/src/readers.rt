// The numbers of an entry, read from its bytes.
ghost use Rattle.std.specs.Prelude.{◌≡◌, ◌++◌, ◌<◌, ◌^◌, List, ℕ};
ghost use Rattle.records.specs.Entries.{place_bytes, head_bytes, order_bytes, load_bytes};
ghost use Rattle.records.specs.Ranges.{HeadFits, OrderFits, LoadFits};
ghost use Rattle.records.specs.declared.fields.Head.{Head};
ghost use Rattle.records.specs.declared.fields.Load.{Load};
ghost use Rattle.records.specs.declared.fields.Order.{Order};
ghost use Rattle.records.specs.declared.fields.Place.{Place};

use crate::fields::{Head, Load, Order, Place};
use crate::numbers::Numbers;

pub fn next_place(numbers: &mut Numbers) -> Place
    ensures { (at : Place) (more : List ℕ) → at.s < 2 ^ 16 → numbers.old.rest.now ≡ place_bytes at ++ more
        → (result ≡ at) × (numbers.new.rest.now ≡ more) }
{
    let g = numbers.next_u8();
    let s = numbers.next_u16();
    let p = numbers.next_u8();
    Place { g, s, p }
}

// The first four bytes are passed over.
pub fn next_head(numbers: &mut Numbers) -> Head
    ensures { (head : Head) (more : List ℕ) → HeadFits head → numbers.old.rest.now ≡ head_bytes head ++ more
        → (result ≡ head) × (numbers.new.rest.now ≡ more) }
{
    let _mark = numbers.next_u32();
    let number = numbers.next_u64();
    let moment = numbers.next_u64();
    let reading = numbers.next_u64();
    let player = numbers.next_u32();
    let form = numbers.next_u8();
    Head {
        number,
        moment,
        reading,
        player,
        form,
    }
}

pub fn next_order(numbers: &mut Numbers) -> Order
    ensures { (order : Order) (more : List ℕ) → OrderFits order → numbers.old.rest.now ≡ order_bytes order ++ more
        → (result ≡ order) × (numbers.new.rest.now ≡ more) }
{
    let from = next_place(numbers);
    let to = next_place(numbers);
    let kind = numbers.next_u8();
    let mission = numbers.next_u8();
    let setting = numbers.next_u8();
    let count = numbers.next_u32();
    let fleet = numbers.next_u64();
    Order {
        from,
        to,
        kind,
        mission,
        setting,
        count,
        fleet,
    }
}

pub fn next_load(numbers: &mut Numbers) -> Load
    ensures { (load : Load) (more : List ℕ) → LoadFits load → numbers.old.rest.now ≡ load_bytes load ++ more
        → (result ≡ load) × (numbers.new.rest.now ≡ more) }
{
    let metal = numbers.next_u64();
    let crystal = numbers.next_u64();
    let deuterium = numbers.next_u64();
    let mut ships = [0; 13];
    numbers.next_counts(&mut ships);
    Load {
        metal,
        crystal,
        deuterium,
        ships,
    }
}
