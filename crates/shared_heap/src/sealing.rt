// What a group has queued is named, in the order of its threads and of their queues.
ghost use Rattle.std.specs.Prelude.{◌≡◌, ◌<◌, ◌≤◌, [], length, true};
ghost use Rattle.convert_queue.specs.Queues.{queue_of, total};
ghost use Rattle.convert_queue.specs.Threads.{has};
ghost use Rattle.convert_words.specs.Scenes.{scene};
ghost use Rattle.converter.specs.Working.{SomeScene};
ghost use Rattle.store_barrier.specs.Passed.{group_names, member_names, queue_names};
ghost use Rattle.shared_heap.specs.Conversions.{with_names};

use ap_base::{Ref, ThreadNo};
use convert_queue::Conversions;
use converter::is_member;
use line_image::Image;
use run_history::Acts;
use twin_heap::TwinHeap;

// Names what a thread has queued.
fn name_queue<I: Image>(acts: &mut Acts, heap: &TwinHeap<I>, queue: &Conversions, u: ThreadNo)
    requires agrees { SomeScene heap.now.space heap.now.memory heap.now.marks queue.now }
    requires room { length (queue_of queue.now u) ≤ acts.old.room }
    ensures named { acts.new ≡ with_names acts.old
        (queue_names (scene heap.now.space heap.now.memory heap.now.marks queue.now 0 []) u) }
{
    for i in 0..u32::MAX {
        let Some(item) = queue.queued(u, i) else {
            return;
        };
        acts.name(heap.number_of(Ref::Volatile(item.0)));
    }
}

// Names what a thread has queued, if it is one of the set.
fn name_member<I: Image>(acts: &mut Acts, heap: &TwinHeap<I>, queue: &Conversions, set: u64, u: u8)
    requires thread { u < 64 }
    requires agrees { SomeScene heap.now.space heap.now.memory heap.now.marks queue.now }
    requires room { has set u ≡ true → length (queue_of queue.now u) ≤ acts.old.room }
    ensures named { acts.new ≡ with_names acts.old
        (member_names (scene heap.now.space heap.now.memory heap.now.marks queue.now 0 []) set u) }
{
    let Some(thread) = ThreadNo::new(u) else {
        return;
    };
    if is_member(set, u) {
        name_queue(acts, heap, queue, thread);
    }
}

/// Names what the threads of a set have queued.
pub(crate) fn name_group<I: Image>(
    acts: &mut Acts,
    heap: &TwinHeap<I>,
    queue: &Conversions,
    set: u64,
)
    requires agrees { SomeScene heap.now.space heap.now.memory heap.now.marks queue.now }
    requires room { total queue.now.queues ≤ acts.old.room }
    ensures named { acts.new ≡ with_names acts.old
        (group_names (scene heap.now.space heap.now.memory heap.now.marks queue.now 0 []) set) }
{
    for u in 0..64u8 {
        name_member(acts, heap, queue, set, u);
    }
}
