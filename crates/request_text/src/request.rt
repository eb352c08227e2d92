ghost use Rattle.std.specs.Prelude.{◌≡◌, MatchOption};
ghost use Rattle.request_text.specs.Words.{IsSpelled, argument_words, form_of, request_words};
ghost use Rattle.request_text.specs.declared.request.Request.{Request};

use crate::form::Form;
use crate::forms;
use base_ids::{Coord, FleetNumber, System};
use base_text::{Bytes, Parts};
use catalog::{
    Amounts, Building, Count, Mission, Ships, SpeedSetting, Technology, Tenths, Unit, Work,
};
use std::alloc::{AllocError, Global};
use std::fmt;

/// What a player asks of the universe.
#[derive(Clone, Copy, Debug, PartialEq, Eq)]
pub enum Request {
    /// `planet C`: how the caller's planet at C stands.
    Planet(Coord),
    /// `account`: how the caller's account stands.
    Account,
    /// `fleets`: the caller's fleets.
    Fleets,
    /// `system G:S`: the planets of a system.
    System(System),
    /// `build C BUILDING`: the next level of a building.
    Build(Coord, Building),
    /// `research C TECH`: the next level of a technology, at the lab of the planet at C.
    Research(Coord, Technology),
    /// `yard C UNIT COUNT`: so many ships, satellites or defences.
    Yard(Coord, Unit, Count),
    /// `set C WORK TENTHS`: a work is to run at so many tenths.
    Set(Coord, Work, Tenths),
    /// `send A B MISSION SETTING SHIPS METAL CRYSTAL DEUTERIUM`: ships with a cargo leave A for B at a speed setting in tenths.
    Send(Coord, Coord, Mission, SpeedSetting, Ships, Amounts),
    /// `join F A B SETTING SHIPS METAL CRYSTAL DEUTERIUM`: ships with a cargo leave A for B and arrive with the attack of group F.
    Join(FleetNumber, Coord, Coord, SpeedSetting, Ships, Amounts),
    /// `recall F`: the caller's fleet F turns back.
    Recall(FleetNumber),
}

impl Request {
    ghost use Rattle.std.specs.Prelude.{◌≡◌, ◌++◌, MatchOption, OnErr, OnOk};
    ghost use Rattle.base_text.specs.Parts.{words};
    ghost use Rattle.request_text.specs.Words.{form_of, request_text, request_words};
    ghost use Rattle.request_text.specs.declared.request.Request.{Request};

    /// The request that a text spells. `None` exactly if it spells none.
    ///
    /// It takes no memory, and reads each byte a bounded number of times.
    pub fn read(line: &[u8]) -> Option<Request>
        ensures { MatchOption result
            ((req : Request) → words line.now ≡ request_words req → ⊥)
            (λ req. words line.now ≡ request_words req) }
    {
        let mut words = Parts::new(line, b' ');
        next_request(&mut words)
    }

    /// Appends the text of the request, without a line feed. It fails only if memory runs out, and then appends nothing.
    pub fn write(&self, alloc: Global, out: &mut Bytes) -> Result<(), AllocError>
        ensures ok { OnOk result (out.new ≡ out.old ++ request_text self.now) }
        ensures err { OnErr result (out.new ≡ out.old) }
    {
        let text = format!(in alloc; "{self}")?;
        out.push(text.as_bytes())
    }

    /// The form of the request.
    pub fn form(&self) -> Form
        ensures { result ≡ form_of self.now }
    {
        match self {
            Request::Planet(_) => Form::Planet,
            Request::Account => Form::Account,
            Request::Fleets => Form::Fleets,
            Request::System(_) => Form::System,
            Request::Build(_, _) => Form::Build,
            Request::Research(_, _) => Form::Research,
            Request::Yard(_, _, _) => Form::Yard,
            Request::Set(_, _, _) => Form::Set,
            Request::Send(_, _, _, _, _, _) => Form::Send,
            Request::Join(_, _, _, _, _, _) => Form::Join,
            Request::Recall(_) => Form::Recall,
        }
    }
}

impl fmt::Display for Request {
    ghost use Rattle.std.specs.Prelude.{Some};
    ghost use Rattle.request_text.specs.Words.{request_text};

    ghost output = { λ req. Some (request_text req) };

    fn fmt<W: fmt::Write>(&self, f: &mut fmt::Formatter<W>) -> fmt::Result {
        match self {
            Request::Planet(at) => write!(f, "planet {at}"),
            Request::Account => write!(f, "account"),
            Request::Fleets => write!(f, "fleets"),
            Request::System(at) => write!(f, "system {at}"),
            Request::Build(at, building) => write!(f, "build {at} {building}"),
            Request::Research(at, technology) => write!(f, "research {at} {technology}"),
            Request::Yard(at, unit, count) => write!(f, "yard {at} {unit} {count}"),
            Request::Set(at, work, tenths) => write!(f, "set {at} {work} {tenths}"),
            Request::Send(from, to, mission, setting, ships, cargo) => {
                write!(f, "send {from} {to} {mission} {setting} {ships} {cargo}")
            }
            Request::Join(fleet, from, to, setting, ships, cargo) => {
                write!(f, "join {fleet} {from} {to} {setting} {ships} {cargo}")
            }
            Request::Recall(fleet) => write!(f, "recall {fleet}"),
        }
    }
}

/// Takes all words that are left as those of a request. `None` exactly if they spell none.
#[tactic(auto, using(crate::proofs::Spelled::heading))]
pub fn next_request(words: &mut Parts) -> Option<Request>
    ensures { MatchOption result
        ((req : Request) → words.old ≡ request_words req → ⊥)
        (λ req. words.old ≡ request_words req) }
{
    let word = words.next()?;
    let form = Form::read(word)?;
    let req = arguments_of(form, words)?;
    Some(req)
}

/// Takes all words that are left as those of a request of a form, after its first.
#[tactic(auto, using(crate::proofs::Spelled::forms))]
fn arguments_of(form: Form, words: &mut Parts) -> Option<Request>
    ensures { MatchOption result
        ((req : Request) → form_of req ≡ form → words.old ≡ argument_words req → ⊥)
        (IsSpelled form words.old) }
{
    match form {
        Form::Planet => forms::planet(words),
        Form::Account => forms::account(words),
        Form::Fleets => forms::fleets(words),
        Form::System => forms::system(words),
        Form::Build => forms::build(words),
        Form::Research => forms::research(words),
        Form::Yard => forms::yard(words),
        Form::Set => forms::set(words),
        Form::Send => forms::send(words),
        Form::Join => forms::join(words),
        Form::Recall => forms::recall(words),
    }
}
