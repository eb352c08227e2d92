ghost use Rattle.std.specs.Prelude.{◌≡◌, All, MatchOption};
ghost use Rattle.request_text.specs.Forms.{form_word};

/// The form of a request: the word that it begins with. Forms are numbered from 1.
#[derive(Clone, Copy, Debug, PartialEq, Eq)]
pub enum Form {
    Planet = 1,
    Account = 2,
    Fleets = 3,
    System = 4,
    Build = 5,
    Research = 6,
    Yard = 7,
    Set = 8,
    Send = 9,
    Join = 10,
    Recall = 11,
}

/// All forms, by number.
const FORMS: [Form; 11] = [
    Form::Planet,
    Form::Account,
    Form::Fleets,
    Form::System,
    Form::Build,
    Form::Research,
    Form::Yard,
    Form::Set,
    Form::Send,
    Form::Join,
    Form::Recall,
];

impl Form {
    ghost use Rattle.std.specs.Prelude.{◌≡◌, MatchOption};
    ghost use Rattle.request_text.specs.Forms.{form_number, form_word};
    ghost use Rattle.request_text.specs.declared.form.Form.{Form};

    /// The number of the form, 1 to 11.
    pub fn number(self) -> u8
        ensures { result ≡ form_number self }
    {
        self as u8
    }

    /// The word of the form.
    pub fn word(self) -> &'static str
        ensures { result.now ≡ form_word self }
    {
        match self {
            Form::Planet => "planet",
            Form::Account => "account",
            Form::Fleets => "fleets",
            Form::System => "system",
            Form::Build => "build",
            Form::Research => "research",
            Form::Yard => "yard",
            Form::Set => "set",
            Form::Send => "send",
            Form::Join => "join",
            Form::Recall => "recall",
        }
    }

    /// The form of a word. `None` exactly if it is of none.
    #[tactic(auto, using(crate::proofs::Heads::read_whole))]
    pub fn read(word: &[u8]) -> Option<Form>
        ensures { MatchOption result
            ((form : Form) → word.now ≡ form_word form → ⊥)
            (λ form. word.now ≡ form_word form) }
    {
        named(&FORMS, word)
    }
}

/// The first of these forms that a word is of.
fn named(forms: &[Form], word: &[u8]) -> Option<Form>
    ensures { MatchOption result
        (All (λ form. word.now ≡ form_word form → ⊥) forms.now)
        (λ form. word.now ≡ form_word form) }
{
    'forms: for form in forms {
        if form.word().as_bytes() == word {
            return Some(*form);
        }
    }
    None
}
