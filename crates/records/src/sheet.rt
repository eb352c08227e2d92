// Bytes that are filled from the front.
ghost use Rattle.std.specs.Prelude.{◌≡◌, ◌≤◌, ◌+◌, ◌*◌, ◌++◌, length};
ghost use Rattle.arrayvec.specs.ArrayVec.{array_vec_len};
ghost use Rattle.std.specs.List.{flat_map};
ghost use Rattle.records.specs.Entries.{u16, u32, u64, head_bytes, order_bytes, load_bytes, place_bytes};

use crate::fields::{Head, Load, Order, Place};
use arrayvec::ArrayVec;

/// The bytes of an entry as far as they are written.
pub type Sheet = ArrayVec<u8, 256>;

// Appends bytes for which there is room.
pub fn put(sheet: &mut Sheet, bytes: &[u8])
    requires { length sheet.old.items + length bytes.now ≤ 256 }
    ensures text { sheet.new.items ≡ sheet.old.items ++ bytes.now }
    ensures size { length sheet.new.items ≡ length sheet.old.items + length bytes.now }
{
    let _ = sheet.try_extend_from_slice(bytes);
}

#[tactic(auto, unfolding(crate::specs::Entries::u16))]
fn put_u16(sheet: &mut Sheet, n: u16)
    requires { length sheet.old.items + 2 ≤ 256 }
    ensures text { sheet.new.items ≡ sheet.old.items ++ u16 n }
    ensures size { length sheet.new.items ≡ length sheet.old.items + 2 }
{
    put(sheet, &n.to_be_bytes());
}

#[tactic(auto, unfolding(crate::specs::Entries::u32))]
fn put_u32(sheet: &mut Sheet, n: u32)
    requires { length sheet.old.items + 4 ≤ 256 }
    ensures text { sheet.new.items ≡ sheet.old.items ++ u32 n }
    ensures size { length sheet.new.items ≡ length sheet.old.items + 4 }
{
    put(sheet, &n.to_be_bytes());
}

#[tactic(auto, unfolding(crate::specs::Entries::u64))]
fn put_u64(sheet: &mut Sheet, n: u64)
    requires { length sheet.old.items + 8 ≤ 256 }
    ensures text { sheet.new.items ≡ sheet.old.items ++ u64 n }
    ensures size { length sheet.new.items ≡ length sheet.old.items + 8 }
{
    put(sheet, &n.to_be_bytes());
}

#[tactic(auto, using(crate::proofs::Pieces::three_pieces))]
fn put_place(sheet: &mut Sheet, at: Place)
    requires { length sheet.old.items + 4 ≤ 256 }
    ensures text { sheet.new.items ≡ sheet.old.items ++ place_bytes at }
    ensures size { length sheet.new.items ≡ length sheet.old.items + 4 }
{
    put(sheet, &[at.g]);
    put_u16(sheet, at.s);
    put(sheet, &[at.p]);
}

#[tactic(auto, using(crate::proofs::Pieces::six_pieces))]
pub fn put_head(sheet: &mut Sheet, head: &Head)
    requires { length sheet.old.items + 33 ≤ 256 }
    ensures text { sheet.new.items ≡ sheet.old.items ++ head_bytes head.now }
    ensures size { length sheet.new.items ≡ length sheet.old.items + 33 }
{
    put(sheet, b"OGE1");
    put_u64(sheet, head.number);
    put_u64(sheet, head.moment);
    put_u64(sheet, head.reading);
    put_u32(sheet, head.player);
    put(sheet, &[head.form]);
}

#[tactic(auto, using(crate::proofs::Pieces::seven_pieces))]
pub fn put_order(sheet: &mut Sheet, order: &Order)
    requires { length sheet.old.items + 23 ≤ 256 }
    ensures text { sheet.new.items ≡ sheet.old.items ++ order_bytes order.now }
    ensures size { length sheet.new.items ≡ length sheet.old.items + 23 }
{
    put_place(sheet, order.from);
    put_place(sheet, order.to);
    put(sheet, &[order.kind]);
    put(sheet, &[order.mission]);
    put(sheet, &[order.setting]);
    put_u32(sheet, order.count);
    put_u64(sheet, order.fleet);
}

#[tactic(auto, using(crate::proofs::Pieces::four_pieces))]
pub fn put_load(sheet: &mut Sheet, load: &Load)
    requires { length sheet.old.items + 76 ≤ 256 }
    ensures text { sheet.new.items ≡ sheet.old.items ++ load_bytes load.now }
    ensures size { length sheet.new.items ≡ length sheet.old.items + 76 }
{
    put_u64(sheet, load.metal);
    put_u64(sheet, load.crystal);
    put_u64(sheet, load.deuterium);
    let ships = load.ships;
    put_ships(sheet, &ships);
}

#[tactic(auto, using(crate::proofs::Pieces::ship_more))]
fn put_ships(sheet: &mut Sheet, ships: &[u32])
    requires { length sheet.old.items + 4 * length ships.now ≤ 256 }
    ensures text { sheet.new.items ≡ sheet.old.items ++ flat_map u32 ships.now }
    ensures size { length sheet.new.items ≡ length sheet.old.items + 4 * length ships.now }
{
    'ships: for count in ships {
        put_u32(sheet, *count);
    }
}
