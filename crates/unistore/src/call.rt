ghost use Rattle.std.specs.Prelude.{◌≡◌, ◌≢◌, ◌⊎◌, None, map, string_bytes};
ghost use Rattle.us_edge.specs.Faults.{Rose};
ghost use Rattle.unistore.specs.Completeness.{IsAccepted};
ghost use Rattle.unistore.specs.Answers.{form_of, Answers, IsDone, IsRefusedInput, IsLimited, IfInput, IfLimit};

use crate::Status;
use crate::form::form_of;
use crate::replay::{refuse_words, replay};
use std::alloc::Global;
use us_edge::{Clock, Links, Sink, Source};

/// Does all that the program does: what the words ask for, from the source to the sink.
///
/// Links and clock are for the forms that link sites; `replay` calls neither.
pub fn unistore<S: Source, K: Sink, L: Links, C: Clock>(
    alloc: Global,
    words: &[String],
    source: &mut S,
    sink: &mut K,
    links: &mut L,
    clock: &mut C,
) -> Status
    ensures answers { Answers (map string_bytes words.now)
        (record { left = S.left source.old; faults = S.faults source.old }) (record { left = S.left source.new; faults = S.faults source.new })
        (record { written = K.written sink.old; faults = K.faults sink.old }) (record { written = K.written sink.new; faults = K.faults sink.new })
        result }

    // The same, for what is asked most.
    ensures words { form_of (map string_bytes words.now) ≡ None → (result ≡ Status.Words) ⊎ (result ≡ Status.WriteFault) }
    ensures only_words { result ≡ Status.Words → form_of (map string_bytes words.now) ≡ None }
    ensures done { result ≡ Status.Done → IsDone (form_of (map string_bytes words.now)) (S.left source.old) (S.left source.new) (K.written sink.old) (K.written sink.new) }
    ensures read_fault { result ≡ Status.ReadFault → Rose (S.faults source.old) (S.faults source.new) × (K.written sink.new ≡ K.written sink.old) }
    ensures write_fault { result ≡ Status.WriteFault → Rose (K.faults sink.old) (K.faults sink.new) }
    ensures input { IfInput result (λ line reason. IsRefusedInput (S.left source.old) (S.left source.new) (K.written sink.old) (K.written sink.new) line reason) }
    ensures limit { IfLimit result (λ which line. IsLimited (S.left source.old) (S.left source.new) (K.written sink.old) (K.written sink.new) which line) }
    ensures linked { result ≢ Status.LinkFault }

    // Complete: where the words are a form, nothing in the text is refused, no limit is passed and no count of faults rises.
    ensures complete { IsAccepted (form_of (map string_bytes words.now)) (S.left source.old)
        → ¬ Rose (S.faults source.old) (S.faults source.new) → ¬ Rose (K.faults sink.old) (K.faults sink.new)
        → (result ≡ Status.Done) ⊎ (result ≡ Status.Memory) }

    // What isn't used stays.
    ensures unread { form_of (map string_bytes words.now) ≡ None → source.new ≡ source.old }
    ensures links { links.new ≡ links.old }
    ensures clock { clock.new ≡ clock.old }
{
    match form_of(words) {
        Some(form) => replay(alloc, form.is_short(), source, sink),
        None => refuse_words(sink),
    }
}
