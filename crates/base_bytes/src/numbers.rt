// Numbers and places at the end of bytes, the most significant byte first. If memory runs out, some of them may be written.
ghost use Rattle.std.specs.Prelude.{◌≡◌, ◌++◌, OnOk};
ghost use Rattle.std.specs.List.{flat_map};
ghost use Rattle.base_bytes.specs.Spelling.{coord_bytes};
ghost use Rattle.records.specs.Entries.{u8, u16, u32, u64};

use base_ids::Coord;
use base_text::Bytes;
use std::alloc::AllocError;

pub fn put_u8(out: &mut Bytes, n: u8) -> Result<(), AllocError>
    ensures { OnOk result (out.new ≡ out.old ++ u8 n) }
{
    out.push(&[n])
}

#[tactic(auto, unfolding(records::specs::Entries::u16))]
pub fn put_u16(out: &mut Bytes, n: u16) -> Result<(), AllocError>
    ensures { OnOk result (out.new ≡ out.old ++ u16 n) }
{
    out.push(&n.to_be_bytes())
}

#[tactic(auto, unfolding(records::specs::Entries::u32))]
pub fn put_u32(out: &mut Bytes, n: u32) -> Result<(), AllocError>
    ensures { OnOk result (out.new ≡ out.old ++ u32 n) }
{
    out.push(&n.to_be_bytes())
}

#[tactic(auto, unfolding(records::specs::Entries::u64))]
pub fn put_u64(out: &mut Bytes, n: u64) -> Result<(), AllocError>
    ensures { OnOk result (out.new ≡ out.old ++ u64 n) }
{
    out.push(&n.to_be_bytes())
}

/// The last four bytes of how many there are of something.
#[tactic(auto, unfolding(records::specs::Entries::u32))]
pub fn put_len(out: &mut Bytes, len: usize) -> Result<(), AllocError>
    ensures { OnOk result (out.new ≡ out.old ++ u32 len) }
{
    let bytes = len.to_be_bytes();
    out.push(&bytes[4..])
}

#[tactic(auto, using(crate::proofs::Counts::count_more))]
pub fn put_counts(out: &mut Bytes, counts: &[u32]) -> Result<(), AllocError>
    ensures { OnOk result (out.new ≡ out.old ++ flat_map u32 counts.now) }
{
    'counts: for count in counts {
        put_u32(out, *count)?;
    }
    Ok(())
}

#[tactic(auto, using(records::proofs::Pieces::three_pieces))]
pub fn put_coord(out: &mut Bytes, at: Coord) -> Result<(), AllocError>
    ensures { OnOk result (out.new ≡ out.old ++ coord_bytes at) }
{
    put_u8(out, at.g)?;
    put_u16(out, at.s)?;
    put_u8(out, at.p)
}
