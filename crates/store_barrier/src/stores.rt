// The store itself.
ghost use Rattle.std.specs.Prelude.{◌≡◌, List};
ghost use Rattle.convert_queue.specs.Queues.{Queues};
ghost use Rattle.machine_forms.specs.Events.{NotesStore};
ghost use Rattle.object_steps.specs.Stores.{CanStore, place_of, stored_by};
ghost use Rattle.run_history.specs.declared.act.Op.TheVariants.{Stored};
ghost use Rattle.step_forms.specs.Follows.{HeapGoes, stored_as};
ghost use Rattle.twin_forms.specs.Table.{Entry};
ghost use Rattle.machine_forms.specs.Passed.{shown_of};
ghost use Rattle.machine_forms.specs.Passed.{Stands, StoresIn};
ghost use Rattle.store_barrier.specs.Barriers.{AgreesWith, IsDurablePlace, IsReady, MayFollow, kept_value, spaces_of};

use convert_queue::Conversions;
use line_image::Image;
use machine_forms::TwoSpaces;
use object_steps::{Store, Target, commit};
use step_forms::Stepped;

// The queue is told of a store to a copied line of an object that is being converted.
fn note_store<I: Image>(spaces: &TwoSpaces<I>, queue: &mut Conversions, store: &Store)
    requires agrees { AgreesWith (spaces_of spaces.now) queue.old }
    requires can { CanStore (shown_of (spaces_of spaces.now)) store.now }
    ensures notes { (es : List Entry) → Stands (spaces_of spaces.now) es
        → NotesStore es (Stored (place_of store.now.target)
        (kept_value (spaces_of spaces.now) store.now)) queue.old queue.new }
    ensures durable { (es : List Entry) → Stands (spaces_of spaces.now) es
        → IsDurablePlace (spaces_of spaces.now) es (place_of store.now.target)
        → queue.new ≡ queue.old }
{
    let Target::Slot { holder, index, .. } = store.target else {
        return;
    };
    let Some(t) = spaces.heap.claimed_by(holder) else {
        return;
    };
    let Some(line) = spaces.heap.copied_line(holder, index) else {
        return;
    };
    queue.dirty(t, line);
}

/// Makes a store before which nothing is to be converted, and tells the queue where it goes to a
/// copied line of an object that is being converted.
pub fn do_store<I: Image>(
    spaces: &mut TwoSpaces<I>,
    queue: &mut Conversions,
    store: Store,
) -> Stepped
    requires ready { IsReady (spaces_of spaces.old) store }
    requires barrier { MayFollow (spaces_of spaces.old) store }
    requires agrees { AgreesWith (spaces_of spaces.old) queue.old }
    ensures step { HeapGoes
        (λ world. stored_as (place_of store.target) (kept_value (spaces_of spaces.old) store))
        (shown_of (spaces_of spaces.old)) result (shown_of (spaces_of spaces.new)) }
    ensures did { result ≡ stored_by (place_of store.target)
        (kept_value (spaces_of spaces.old) store) }
    ensures heap { StoresIn (spaces_of spaces.old) (place_of store.target) store.kept
        (spaces_of spaces.new) }
    ensures notes { (es : List Entry) → Stands (spaces_of spaces.old) es
        → NotesStore es (Stored (place_of store.target) (kept_value (spaces_of spaces.old) store))
        queue.old queue.new }
    ensures durable { (es : List Entry) → Stands (spaces_of spaces.old) es
        → IsDurablePlace (spaces_of spaces.old) es (place_of store.target)
        → queue.new ≡ queue.old }
{
    note_store(spaces, queue, &store);
    commit(spaces, store)
}
