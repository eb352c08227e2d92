// A disk, by what it tells of itself.
ghost use Rattle.std.specs.Prelude.{◌≡◌, ℕ, ◌++◌, ◌≤◌, length, take, drop, OnOk, IfOk};
ghost use Rattle.std.specs.Io.{ReadsAtMost};
ghost use Rattle.ports.specs.Causes.{HasCause};
ghost use Rattle.ports.specs.Counts.{next_count};
ghost use Rattle.disk_port.specs.Contents.{written, given, Torn, Shortened};
ghost use Rattle.disk_port.specs.Disk.{Rests, Tears, Settles, Elapses};
ghost use Rattle.disk_port.specs.Story.{Story, Lawful, Told};

use ports::Failed;

/// A disk of bytes. A place is the number of a byte, counted from 0.
///
/// What is written is read at once, but only a sync that succeeds makes sure of it. Until then a crash may leave any bytes
/// in each written range and past the old end, and any end from the old one to the new one; all other bytes stay. After a
/// cut it may leave any end from the cut to the old one, with any bytes past the cut. A call that fails may have
/// done all this too, and a sync that fails makes sure of nothing.
pub trait Disk {
    // what the disk tells of itself, if it tells
    ghost story: { Story Self };

    // how many calls were made, and how many of them have failed, each up to 2^64 - 1
    ghost calls: { Self → ℕ };

    ghost faults: { Self → ℕ };

    /// How many bytes there are.
    fn len(&mut self) -> Result<u64, Failed>
        ensures length { Told story self.old self.new (IfOk result (λ n. n ≡ length (story.seen self.old))) }
        ensures images { Told story self.old self.new (Rests story self.old self.new) }
        ensures time { Told story self.old self.new (Elapses story self.old self.new) }
        ensures counted { calls self.new ≡ next_count (calls self.old) }
        ensures cause { HasCause (faults self.old) (faults self.new) result };

    /// Reads the bytes from this place on into the front of `into`, and returns how many: as many as `into` has room for,
    /// or fewer if the disk ends before.
    fn read_at(&mut self, at: u64, into: &mut [u8]) -> Result<usize, Failed>
        ensures bound { ReadsAtMost result into.new }
        ensures count { Told story self.old self.new (IfOk result (λ n. n ≡ given (story.seen self.old) at (length into.old))) }
        ensures bytes { Told story self.old self.new (IfOk result (λ n.
            into.new ≡ take n (drop at (story.seen self.old)) ++ drop n into.old)) }
        ensures images { Told story self.old self.new (Rests story self.old self.new) }
        ensures time { Told story self.old self.new (Elapses story self.old self.new) }
        ensures counted { calls self.new ≡ next_count (calls self.old) }
        ensures cause { HasCause (faults self.old) (faults self.new) result };

    /// Writes bytes from this place on, over what is there and past the end. If it fails, what a read then gives is one of
    /// the images.
    fn write_at(&mut self, at: u64, from: &[u8]) -> Result<(), Failed>
        requires { story.tells self.old → at ≤ length (story.seen self.old) }
        ensures written { Told story self.old self.new (OnOk result (story.seen self.new ≡ written (story.seen self.old) at from.now)) }
        ensures images { Told story self.old self.new (Tears story (Torn at (length from.now)) self.old self.new result) }
        ensures time { Told story self.old self.new (Elapses story self.old self.new) }
        ensures counted { calls self.new ≡ next_count (calls self.old) }
        ensures cause { HasCause (faults self.old) (faults self.new) result };

    /// Cuts the disk to this length, if it is longer. If it fails, what a read then gives is one of the images.
    fn cut(&mut self, len: u64) -> Result<(), Failed>
        ensures cut { Told story self.old self.new (OnOk result (story.seen self.new ≡ take len (story.seen self.old))) }
        ensures images { Told story self.old self.new (Tears story (Shortened len) self.old self.new result) }
        ensures time { Told story self.old self.new (Elapses story self.old self.new) }
        ensures counted { calls self.new ≡ next_count (calls self.old) }
        ensures cause { HasCause (faults self.old) (faults self.new) result };

    /// Makes sure of what a read gives: after it a crash leaves that and nothing else. If it fails it has made sure of
    /// nothing.
    fn sync(&mut self) -> Result<(), Failed>
        ensures images { Told story self.old self.new (Settles story self.old self.new result) }
        ensures time { Told story self.old self.new (Elapses story self.old self.new) }
        ensures counted { calls self.new ≡ next_count (calls self.old) }
        ensures cause { HasCause (faults self.old) (faults self.new) result };

    // what it tells holds together
    ghost laws: { Lawful story };
}
