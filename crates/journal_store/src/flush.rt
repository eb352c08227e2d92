// Flushes: the next batch of pending entries is written and made sure of.
use crate::batch::{BATCH, drop_front, fill};
use crate::gate::Gate;
use crate::journal::Journal;
use disk_port::{Disk, write_and_sync};
use ports::Failed;

impl Journal {
    ghost use Rattle.std.specs.Prelude.{◌≡◌, ◌≢◌, ◌+◌, ◌*◌, ◌≤◌, List, [], length, IfOk, IsOk, OnOk, OnErr};
    ghost use Rattle.journal_store.specs.Gates.{IsUnstaged, batch_size};
    ghost use Rattle.journal_store.specs.Ledger.{Flushes, Keeps, Settles};
    ghost use Rattle.journal_store.specs.Standing.{CanFlush, Carries};
    ghost use Rattle.journal_store.specs.declared.gate.Gate.TheVariants.{Closed, Staged};
    ghost use Rattle.journal_store.specs.declared.start.Start.{Start};
    ghost use Rattle.ports.specs.Causes.{HasCause};
    ghost use Rattle.request_text.specs.declared.entry.Entry.{Entry};

    /// Makes the next batch of pending entries durable, and returns how many entries since the base are. If it fails, all its
    /// entries stay pending, and the next flush goes on from where it is safe. It takes no memory.
    pub fn flush<D: Disk>(&mut self, disk: &mut D) -> Result<u64, Failed>
        requires { D.story.tells disk.old → CanFlush D.story self.old disk.old }
        ensures flushes { Flushes self.old self.new result }
        ensures more { OnOk result (1 ≤ length self.old.pending.items → self.old.durable + 1 ≤ self.new.durable) }
        ensures idle { self.old.pending.items ≡ [] → (disk.new ≡ disk.old) × (self.new ≡ self.old) × IsOk result }
        ensures closed { OnOk result (self.old.pending.items ≢ [] → self.new.gate ≡ Closed) }
        ensures keeps { (start : Start) (drawn : List Entry) → Keeps start drawn self.old → Keeps start drawn self.new }
        ensures leads { Carries D.story self.old self.new disk.old disk.new }
        ensures again { D.story.tells disk.new → CanFlush D.story self.new disk.new }
        ensures calls { D.calls disk.new ≤ D.calls disk.old + 4 }
        ensures cause { HasCause (D.faults disk.old) (D.faults disk.new) result }
    {
        if self.pending.is_empty() {
            return Ok(self.durable);
        }
        let count = self.stage(disk)?;
        self.open_gate(disk, count)?;
        Ok(self.durable)
    }

    // Has the next batch stand behind its gate, and returns how many entries it has.
    fn stage<D: Disk>(&mut self, disk: &mut D) -> Result<usize, Failed>
        requires some { 1 ≤ length self.old.pending.items }
        requires stands { D.story.tells disk.old → CanFlush D.story self.old disk.old }
        ensures settles { Settles 0 self.old self.new }
        ensures count { IfOk result (λ count. count ≡ batch_size self.old.gate (length self.old.pending.items)) }
        ensures staged { IfOk result (λ count. self.new.gate ≡ Staged count) }
        ensures leads { Carries D.story self.old self.new disk.old disk.new }
        ensures again { D.story.tells disk.new → CanFlush D.story self.new disk.new }
        ensures calls { D.calls disk.new ≤ D.calls disk.old + 2 }
        ensures cause { HasCause (D.faults disk.old) (D.faults disk.new) result }
    {
        match self.gate {
            Gate::Staged { count } => Ok(count),
            Gate::Missing | Gate::Closed => self.write_batch(disk),
        }
    }

    // Steps 1 and 2: writes the next batch behind the closed gate, or with the gate if it is missing, and syncs.
    fn write_batch<D: Disk>(&mut self, disk: &mut D) -> Result<usize, Failed>
        requires some { 1 ≤ length self.old.pending.items }
        requires unstaged { IsUnstaged self.old.gate }
        requires stands { D.story.tells disk.old → CanFlush D.story self.old disk.old }
        ensures settles { Settles 0 self.old self.new }
        ensures count { IfOk result (λ count. count ≡ batch_size self.old.gate (length self.old.pending.items)) }
        ensures staged { IfOk result (λ count. self.new.gate ≡ Staged count) }
        ensures leads { Carries D.story self.old self.new disk.old disk.new }
        ensures calls { D.calls disk.new ≤ D.calls disk.old + 2 }
        ensures cause { HasCause (D.faults disk.old) (D.faults disk.new) result }
    {
        let count = self.pending.len().min(BATCH);
        fill(&mut self.bytes, &self.pending, count);
        let standing = self.gate.standing();
        write_and_sync(disk, self.end + standing as u64, &self.bytes[standing..])?;
        self.gate = Gate::Staged { count };
        Ok(count)
    }

    // Steps 3 and 4: opens the gate of the batch that is staged, and syncs.
    fn open_gate<D: Disk>(&mut self, disk: &mut D, count: usize) -> Result<(), Failed>
        requires staged { self.old.gate ≡ Staged count }
        requires stands { D.story.tells disk.old → CanFlush D.story self.old disk.old }
        ensures ok { OnOk result (Settles count self.old self.new) }
        ensures err { OnErr result (Settles 0 self.old self.new) }
        ensures closed { OnOk result (self.new.gate ≡ Closed) }
        ensures leads { Carries D.story self.old self.new disk.old disk.new }
        ensures calls { D.calls disk.new ≤ D.calls disk.old + 2 }
        ensures cause { HasCause (D.faults disk.old) (D.faults disk.new) result }
    {
        write_and_sync(disk, self.end, &[1])?;
        self.settle(count);
        Ok(())
    }

    // The batch that is staged is durable now.
    fn settle(&mut self, count: usize)
        requires { self.old.gate ≡ Staged count }
        ensures settles { Settles count self.old self.new }
        ensures closed { self.new.gate ≡ Closed }
        ensures end { self.new.end ≡ self.old.end + 2 + 256 * count }
    {
        self.durable += count as u64;
        self.end += 2 + 256 * count as u64;
        self.gate = Gate::Closed;
        drop_front(&mut self.pending, count);
    }
}
