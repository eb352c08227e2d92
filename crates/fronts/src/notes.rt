//! What can be done with a note.
ghost use Rattle.std.specs.Prelude.{◌≡◌, [], length};
ghost use Rattle.fronts.specs.Claims.{Follows};
ghost use Rattle.fronts.specs.History.{IsHistory};
ghost use Rattle.fronts.specs.Tokens.{Unites};
ghost use Rattle.fronts.specs.Views.{note_with, united, with_front};

use crate::fronts::Fronts;
use crate::naming::{Naming, Origin};
use crate::tokens::Note;

impl<O: Origin, J: Naming> Fronts<O, J> {
    /// The note sees the history as it is now. No entry that it did not know concerns its claims.
    pub fn look_again(&self, note: &mut Note<O, J>) -> u64
        ensures view { note.new ≡ with_front note.old note.new.front }
        ensures count { result ≡ length note.new.front }
        ensures history { IsHistory O.start note.new.front }
        ensures follows { Follows O.start note.old.claims note.old.front note.new.front }
    {
        self.look_as(&mut note.token)
    }

    /// Another note of what the note has seen, with no claims.
    pub fn copy(&self, note: &mut Note<O, J>) -> Note<O, J>
        ensures kept { note.new ≡ note.old }
        ensures given { result ≡ note_with note.old [] }
    {
        let token = self.note_as(&mut note.token);
        Note { token }
    }

    /// One note with all that both have seen and may do.
    pub fn gather(&self, note: &mut Note<O, J>, other: Note<O, J>)
        ensures view { note.new ≡ united note.old other }
        ensures history { IsHistory O.start note.new.front }
        ensures follows { Unites O.start note.old other note.new }
    {
        let Note { token } = other;
        self.take_as(&mut note.token, token);
    }
}
