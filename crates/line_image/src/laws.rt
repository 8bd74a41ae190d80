// What holds of every trace.
ghost use Rattle.std.specs.Prelude.{◌≡◌, ◌<◌, ℕ, List, Option, Some};
ghost use Rattle.line_image.specs.Trace.{Trace, Outcome, LeavesNow, LeftWithin, IsAllFenced, read_word, did, trace_within};
ghost use Rattle.line_image.specs.Told.{Told, IsCounted};
ghost use Rattle.line_image.specs.declared.effect.Done.{Done as Deed};
ghost use Rattle.line_image.specs.declared.effect.Done.TheVariants.{Wrote, Fenced};

/// What a stop leaves is never nothing, and never forgotten. Does nothing: its contract says so of every
/// trace.
pub fn laws_of_stops()
    // What reads give may be left.
    ensures readable { (h : Trace) → LeavesNow (Some h) (read_word h) }

    // Where nothing is unfenced, nothing else is left.
    ensures fenced { (h : Trace) (c : Outcome) → IsAllFenced (Some h) → LeavesNow (Some h) c → (l w : ℕ)
        → c l w ≡ read_word h l w }

    // What may be left now counts for each call from now on, until it has done something.
    ensures from_now_on { (told : Told) (m : ℕ) (c : Outcome) → IsCounted told
        → told.calls < m → LeavesNow told.trace c → LeftWithin told.trace m c }

    // What a stop within a past call might have left it still might, and nothing else.
    ensures past { (m at : ℕ) (done : Deed) (o : Option Trace) → m < at
        → trace_within m (did done at o) ≡ trace_within m o }

    // Within a write its values are there. Within a fence it isn't made.
    ensures in_write { (at line : ℕ) (words : List ℕ) (o : Option Trace)
        → trace_within at (did (Wrote line words) at o) ≡ did (Wrote line words) at o }
    ensures in_fence { (at : ℕ) (o : Option Trace)
        → trace_within at (did Fenced at o) ≡ trace_within at o }
{}
