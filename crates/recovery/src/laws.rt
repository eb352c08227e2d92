// Laws of the definitions. Each of these functions does nothing: the law is its contract.
ghost use Rattle.recovery.specs.Laws.{AreasReopen, OpensOnce};

/// An area that was laid for a base is open, and this base is found in it.
pub fn areas_reopen()
    ensures { AreasReopen }
{}

/// Two areas open in one way. So each result of an opening comes exactly where it says, but for faults of disks and want of
/// memory.
pub fn areas_open_once()
    ensures { OpensOnce }
{}
