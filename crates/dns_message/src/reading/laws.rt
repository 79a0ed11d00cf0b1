//! The values read are the values spelled by the octets: laws about the definitions in the
//! contracts.

ghost use Rattle.std.specs.Prelude.{◌≡◌, ◌↔◌, ◌≤◌, [], List, ℕ, Ok, Some, ◌+◌, length};
ghost use Rattle.dns_name.specs.Labels.{IsName, size_of};
ghost use Rattle.dns_message.specs.Values as values;
ghost use Rattle.dns_message.specs.Names.{NameAt, name_at};
ghost use Rattle.dns_message.specs.Data.{DataAt, data_at, name_octets, name_of_rdata};
ghost use Rattle.dns_message.specs.Records.{QuestionAt, RecordAt, InRow, question_at, record_at};
ghost use Rattle.dns_message.specs.Messages.{Spells, FirstQuestion, HasShapes, first_question, message_of};
ghost use Rattle.dns_message.specs.Numbers.{number16};
ghost use Rattle.dns_message.specs.Spans.{SpansAt, spans_of, counted_sections};
ghost use Rattle.dns_message.specs.declared.reading.spans.Span as span;

/// A name, a record's data, a question and a record are read exactly if the octets have them.
pub fn what_stands_is_read()
    ensures name { (bytes : List ℕ) (o e : ℕ) (labels : List (List ℕ)) → name_at bytes o ≡ Ok (labels, e)
        ↔ (NameAt bytes o o labels e × (size_of labels ≤ 255)) }
    ensures rdata { (kind : ℕ) (bytes : List ℕ) (o len : ℕ) (octets : List ℕ)
        → data_at kind bytes o len ≡ Ok (octets, o + len) ↔ DataAt kind bytes o len octets }
    ensures question { (bytes : List ℕ) (o e : ℕ) (question : values.Question) → question_at bytes o ≡ Ok (question, e)
        ↔ QuestionAt bytes o question e }
    ensures entry { (bytes : List ℕ) (o e : ℕ) (entry : values.Record) → record_at bytes o ≡ Ok (entry, e)
        ↔ RecordAt bytes o entry e }
{}

/// A message and its first question are read exactly if the octets spell them, and no octets spell
/// two messages. The data of a message's records has their shapes.
pub fn messages_are_spelled()
    ensures read { (bytes : List ℕ) (message : values.Message) → message_of bytes ≡ Ok message ↔ Spells bytes message }
    ensures first { (bytes : List ℕ) (question : values.Question) → first_question bytes ≡ Ok question
        ↔ FirstQuestion bytes question }
    ensures one { (bytes : List ℕ) (first second : values.Message) → Spells bytes first → Spells bytes second
        → first ≡ second }
    ensures shaped { (bytes : List ℕ) (message : values.Message) → Spells bytes message → HasShapes message }
{}

/// Data that is one name is the name, written out in full.
pub fn names_are_written_out()
    ensures { (octets : List ℕ) (labels : List (List ℕ)) → name_of_rdata octets ≡ Some labels
        ↔ (IsName labels × (octets ≡ name_octets labels)) }
{}

/// The spans of a message are the spans of all readable records, in order. There are none after an
/// unreadable question.
pub fn spans_are_records()
    ensures spans { (bytes : List ℕ) (questions : List values.Question) (o : ℕ) (spans : List span.Span)
        → InRow (QuestionAt bytes) 12 questions o → length questions ≡ number16 bytes 4
        → spans ≡ spans_of bytes ↔ SpansAt bytes (counted_sections bytes) o spans }
    ensures none { (bytes : List ℕ) → ((questions : List values.Question) (o : ℕ)
        → InRow (QuestionAt bytes) 12 questions o → length questions ≡ number16 bytes 4 → ⊥) → spans_of bytes ≡ [] }
{}
