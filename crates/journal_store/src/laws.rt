// Laws of the definitions. Each of these functions does nothing: the law is its contract.
ghost use Rattle.journal_store.specs.Laws.{BatchesJoin, JournalsStand};

use disk_port::Disk;

/// What a journal's calls leave of how its disk stands, and what images hold over several flushes.
pub fn journals_stand<D: Disk>()
    ensures { JournalsStand D.story }
{}

/// What batches that were found and batches that were written since make together.
pub fn batches_join()
    ensures { BatchesJoin }
{}
