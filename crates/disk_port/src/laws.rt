// Laws of the definitions. Each of these functions does nothing: the law is its contract.
ghost use Rattle.disk_port.specs.Laws.{WritesTear, WritesHold, CutsTear, MomentsChain, PairsChain};

use crate::disk::Disk;

/// What a write leaves alone, and the most and the least that a crash may leave of it.
pub fn writes_tear()
    ensures { WritesTear }
{}

/// What a cut leaves alone, and the most and the least that a crash may leave of it.
pub fn cuts_tear()
    ensures { CutsTear }
{}

/// Where the bytes of a write stand, and what stands around them.
pub fn writes_hold()
    ensures { WritesHold }
{}

/// What holds of each image that a crash at any moment since a state might have left goes on from call to call.
pub fn moments_chain<D: Disk>()
    ensures { MomentsChain D.story }
{}

/// The same of two disks, of which one is called at a time.
pub fn pairs_chain<D: Disk>()
    ensures { PairsChain D.story }
{}
