// Entries as bytes.
ghost use Rattle.std.specs.Prelude.{◌≡◌, ◌↔◌, IsTrue, MatchOption, Some};
ghost use Rattle.records.specs.Columns.{order_of, load_of};
ghost use Rattle.records.specs.Entries.{entry_bytes, head_of};
ghost use Rattle.records.specs.Ranges.{IsInRange};
ghost use Rattle.request_text.specs.declared.entry.Entry.{Entry};

use crate::fields::{Head, Load, Order};
use crate::numbers::Numbers;
use crate::readers::{next_head, next_load, next_order};
use crate::requests::request_of;
use crate::sheet::{Sheet, put, put_head, put_load, put_order};
use crate::values::player;
use base_ids::LAST_NUMBER;
use ports::LATEST;
use request_text::Entry;

/// Writes the 256 bytes that spell an entry. It takes no memory.
#[tactic(auto, using(crate::proofs::Pieces::whole_entry))]
pub fn write(entry: &Entry, b: &mut [u8; 256])
    ensures { b.new ≡ entry_bytes entry.now }
{
    let mut sheet = Sheet::new();
    put_head(&mut sheet, &Head::of(entry));
    put_order(&mut sheet, &Order::of(&entry.req));
    put_load(&mut sheet, &Load::of(&entry.req));
    put(&mut sheet, &[0; 124]);
    b.copy_from_slice(sheet.as_slice());
}

/// The entry that 256 bytes spell. `None` exactly if they spell none whose number, moment and reading are in their ranges. It
/// takes no memory.
pub fn read(b: &[u8; 256]) -> Option<Entry>
    ensures { MatchOption result
        ((entry : Entry) → IsInRange entry → b.now ≡ entry_bytes entry → ⊥)
        (λ entry. IsInRange entry × (b.now ≡ entry_bytes entry)) }
{
    let entry = next_entry(b)?;
    if is_in_range(&entry) && is_spelled(&entry, b) {
        Some(entry)
    } else {
        None
    }
}

// The entry that bytes spell, if they spell one. Whether they do is not tested.
fn next_entry(b: &[u8]) -> Option<Entry>
    ensures { (entry : Entry) → IsInRange entry → b.now ≡ entry_bytes entry → result ≡ Some entry }
{
    let mut numbers = Numbers { rest: b };
    let head = next_head(&mut numbers);
    let order = next_order(&mut numbers);
    let load = next_load(&mut numbers);
    entry_of(&head, &order, &load)
}

fn entry_of(head: &Head, order: &Order, load: &Load) -> Option<Entry>
    ensures { (entry : Entry) → head.now ≡ head_of entry → order.now ≡ order_of entry.req → load.now ≡ load_of entry.req
        → result ≡ Some entry }
{
    let player = player(head.player)?;
    let req = request_of(head.form, order, load)?;
    Some(Entry {
        number: head.number,
        moment: head.moment,
        reading: head.reading,
        player,
        req,
    })
}

fn is_in_range(entry: &Entry) -> bool
    ensures { IsTrue result ↔ IsInRange entry.now }
{
    entry.number >= 1
        && entry.number <= LAST_NUMBER
        && entry.moment <= LATEST
        && entry.reading <= entry.moment
}

// Whether these bytes spell an entry.
fn is_spelled(entry: &Entry, b: &[u8; 256]) -> bool
    ensures { IsTrue result ↔ (b.now ≡ entry_bytes entry.now) }
{
    let mut own = [0; 256];
    write(entry, &mut own);
    is_same(&own, b)
}

fn is_same(a: &[u8], b: &[u8]) -> bool
    ensures { IsTrue result ↔ (a.now ≡ b.now) }
{
    a == b
}
