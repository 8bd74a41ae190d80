// Kinds of operations and requests.
ghost use Rattle.std.specs.Prelude.{◌≡◌};
ghost use Rattle.plain_machine.specs.Ops.{asks_print, changes_heap, is_start};
ghost use Rattle.plain_model.specs.Codes.{is_persistent};

use natives::Request;
use run_history::Op;

/// Whether an operation is one of persistence, which leaves the plain world and the frames as they
/// are.
pub(crate) fn is_persistent(op: &Op) -> bool
    ensures { result ≡ is_persistent op.now }
{
    matches!(
        op,
        Op::Asked { .. } | Op::Joined | Op::Guarded { .. } | Op::Closing | Op::Fenced
    )
}

/// Whether an operation starts a thread.
pub(crate) fn is_start(op: &Op) -> bool
    ensures { result ≡ is_start op.now }
{
    matches!(op, Op::Start { .. })
}

/// Whether an operation changes the heap.
pub(crate) fn changes_heap(op: &Op) -> bool
    ensures { result ≡ changes_heap op.now }
{
    matches!(op, Op::Alloc { .. } | Op::Throw { .. } | Op::Stored { .. })
}

/// Whether a request prints.
pub(crate) fn asks_print(request: &Request) -> bool
    ensures { result ≡ asks_print request.now }
{
    matches!(request, Request::Print { .. })
}
