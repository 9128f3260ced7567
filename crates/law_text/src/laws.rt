ghost use Rattle.std.specs.Prelude.{◌≡◌, List, ℕ, [], ◌∷◌, true};
ghost use Rattle.bearer_types.specs.declared.event.Event.{Event};
ghost use Rattle.air_record.specs.Text.{worded, text_of, event_words};
ghost use Rattle.air_record.specs.declared.record.Record.{Record};
ghost use Rattle.law_text.specs.Records.{read_text, IsGood};
ghost use Rattle.law_text.specs.Back.{event_back, IsGoodEvent, cut};
ghost use Rattle.air_text.specs.Spoken.{are_clear};

/// The words of an event give it back.
pub fn event_texts()
    ensures { (node : List ℕ) (e : Event) → IsGoodEvent e → event_back (event_words node e) ≡ e }
{}

/// The words of a text are those that it was made of.
pub fn words_of_text()
    ensures { (w : List ℕ) (ws : List (List ℕ)) → are_clear (w ∷ ws) ≡ true
        → cut [] (worded (w ∷ ws)) ≡ w ∷ ws }
{}

/// The text of a record gives it back.
pub fn texts_are_read()
    ensures { (one : Record) → IsGood one → read_text (text_of one) ≡ one }
{}

/// No two records have one text.
pub fn one_text()
    ensures { (one : Record) (other : Record) → IsGood one → IsGood other
        → text_of one ≡ text_of other → one ≡ other }
{}
