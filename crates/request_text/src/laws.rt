ghost use Rattle.std.specs.Prelude.{◌≡◌, ℕ, List, Bool};
ghost use Rattle.base_text.specs.Parts.{words};
ghost use Rattle.request_text.specs.Grammar.{Spells};
ghost use Rattle.request_text.specs.Words.{request_text, request_words};
ghost use Rattle.request_text.specs.declared.call.Call.{Call};
ghost use Rattle.request_text.specs.declared.request.Request.{Request};

/// A line spells at most one call, and each call is spelled by at most one line. The text of a request spells it, and
/// nothing else does; and it spells no other request. It does nothing: the laws are its contract.
pub fn spell_once()
    ensures one_call { (script : Bool) (line : List ℕ) (a b : Call) → Spells script line a → Spells script line b → a ≡ b }
    ensures one_line { (script : Bool) (call : Call) (a b : List ℕ) → Spells script a call → Spells script b call → a ≡ b }
    ensures text_spells { (req : Request) → words (request_text req) ≡ request_words req }
    ensures one_text { (req : Request) (text : List ℕ) → words text ≡ request_words req → text ≡ request_text req }
    ensures one_request { (a b : Request) → request_words a ≡ request_words b → a ≡ b }
{}
