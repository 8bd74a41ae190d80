//! What shared instructions ask.

ghost use Rattle.std.specs.Prelude.{◌≡◌, Option};
ghost use Rattle.natives.specs.declared.requests.Request.{Request};
ghost use Rattle.frames.specs.Requests.{request_of, value_so, given, width_of, taken_by};

use crate::host::Host;
use crate::tables::{field, is_of_program, outline_at, selector};
use ap_base::Kind;
use code_form::{Access, Equality};
use frame_cells::Cells;
use frames::Op;
use natives::Request;
use run_types::{At, Key};

/// How many cells a value of a place of this kind takes.
pub fn width_of(kind: Kind) -> usize
    ensures { result ≡ width_of kind }
{
    match kind {
        Kind::J => 2,
        _ => 1,
    }
}

/// The value on top that goes into a place of this kind.
pub fn value<M: Copy + Drop, R: Copy + Drop, N: Copy + Drop, V: Drop, H: Host<M, R, N, V>>(
    host: &H,
    cells: &Cells<R>,
    kind: Kind,
) -> Option<V>
    ensures { (go : V → Option (Request R V)) →
        value_so (H.setting host.now) kind cells.now.own go ≡ given result go }
{
    match kind {
        Kind::J => Some(host.of_long(cells.long_at(0)?)),
        Kind::L => Some(host.of_reference(cells.reference_at(0)?)),
        _ => Some(host.of_int(cells.int_at(0)?)),
    }
}

fn init<M: Copy + Drop, R: Copy + Drop, N: Copy + Drop, V: Drop, H: Host<M, R, N, V>>(
    host: &H,
    cells: &Cells<R>,
    method: u32,
    from: At,
) -> Option<Request<R, V>>
    ensures { result ≡ request_of (H.setting host.now) (Op.InvokeStatic method) from cells.now.own }
{
    let class = outline_at(host.program(), method).class;
    if is_of_program(host.program(), class) {
        Some(Request::Init { from, class })
    } else {
        None
    }
}

fn receiver<M: Copy + Drop, R: Copy + Drop, N: Copy + Drop, V: Drop, H: Host<M, R, N, V>>(
    host: &H,
    cells: &Cells<R>,
    number: u32,
    from: At,
) -> Option<Request<R, V>>
    ensures { result ≡ request_of (H.setting host.now) (Op.InvokeVirtual number) from cells.now.own }
{
    let selector = selector(host.program(), number);
    let object = cells.reference_at((selector.arguments as usize).saturating_sub(1))?;
    Some(Request::ClassOf {
        from,
        object,
        within: selector.within,
    })
}

fn get_element<M: Copy + Drop, R: Copy + Drop, N: Copy + Drop, V: Drop, H: Host<M, R, N, V>>(
    host: &H,
    cells: &Cells<R>,
    kind: Kind,
    from: At,
) -> Option<Request<R, V>>
    ensures { result ≡ request_of (H.setting host.now) (Op.Element Access.Load kind) from cells.now.own }
{
    let array = cells.reference_at(1)?;
    let index = cells.int_at(0)?;
    Some(Request::GetElement {
        from,
        array,
        index,
        kind,
    })
}

fn put_element<M: Copy + Drop, R: Copy + Drop, N: Copy + Drop, V: Drop, H: Host<M, R, N, V>>(
    host: &H,
    cells: &Cells<R>,
    kind: Kind,
    from: At,
) -> Option<Request<R, V>>
    ensures { result ≡ request_of (H.setting host.now) (Op.Element Access.Store kind) from cells.now.own }
{
    let width = width_of(kind);
    let array = cells.reference_at(width + 1)?;
    let index = cells.int_at(width)?;
    let value = value(host, cells, kind)?;
    Some(Request::PutElement {
        from,
        array,
        index,
        kind,
        value,
    })
}

fn same<M: Copy + Drop, R: Copy + Drop, N: Copy + Drop, V: Drop, H: Host<M, R, N, V>>(
    host: &H,
    cells: &Cells<R>,
    equality: Equality,
    target: u32,
    from: At,
) -> Option<Request<R, V>>
    ensures { result ≡ request_of (H.setting host.now) (Op.IfSame equality target) from cells.now.own }
{
    let left = cells.reference_at(1)?;
    let right = cells.reference_at(0)?;
    Some(Request::Same { from, left, right })
}

fn get_static<M: Copy + Drop, R: Copy + Drop, N: Copy + Drop, V: Drop, H: Host<M, R, N, V>>(
    host: &H,
    cells: &Cells<R>,
    number: u32,
    from: At,
) -> Option<Request<R, V>>
    ensures { result ≡ request_of (H.setting host.now) (Op.Static Access.Load number) from cells.now.own }
{
    let field = field(host.program(), number);
    Some(Request::GetStatic { from, field })
}

fn put_static<M: Copy + Drop, R: Copy + Drop, N: Copy + Drop, V: Drop, H: Host<M, R, N, V>>(
    host: &H,
    cells: &Cells<R>,
    number: u32,
    from: At,
) -> Option<Request<R, V>>
    ensures { result ≡ request_of (H.setting host.now) (Op.Static Access.Store number) from cells.now.own }
{
    let field = field(host.program(), number);
    let value = value(host, cells, field.kind)?;
    Some(Request::PutStatic { from, field, value })
}

fn get_field<M: Copy + Drop, R: Copy + Drop, N: Copy + Drop, V: Drop, H: Host<M, R, N, V>>(
    host: &H,
    cells: &Cells<R>,
    number: u32,
    from: At,
) -> Option<Request<R, V>>
    ensures { result ≡ request_of (H.setting host.now) (Op.Field Access.Load number) from cells.now.own }
{
    let holder = cells.reference_at(0)?;
    let field = field(host.program(), number);
    Some(Request::GetField {
        from,
        holder,
        field,
    })
}

fn put_field<M: Copy + Drop, R: Copy + Drop, N: Copy + Drop, V: Drop, H: Host<M, R, N, V>>(
    host: &H,
    cells: &Cells<R>,
    number: u32,
    from: At,
) -> Option<Request<R, V>>
    ensures { result ≡ request_of (H.setting host.now) (Op.Field Access.Store number) from cells.now.own }
{
    let field = field(host.program(), number);
    let holder = cells.reference_at(width_of(field.kind))?;
    let value = value(host, cells, field.kind)?;
    Some(Request::PutField {
        from,
        holder,
        field,
        value,
    })
}

fn new_array<M: Copy + Drop, R: Copy + Drop, N: Copy + Drop, V: Drop, H: Host<M, R, N, V>>(
    host: &H,
    cells: &Cells<R>,
    shape: u32,
    from: At,
) -> Option<Request<R, V>>
    ensures { result ≡ request_of (H.setting host.now) (Op.NewArray shape) from cells.now.own }
{
    let length = cells.int_at(0)?;
    Some(Request::NewArray {
        from,
        shape,
        length,
    })
}

fn length<M: Copy + Drop, R: Copy + Drop, N: Copy + Drop, V: Drop, H: Host<M, R, N, V>>(
    host: &H,
    cells: &Cells<R>,
    from: At,
) -> Option<Request<R, V>>
    ensures { result ≡ request_of (H.setting host.now) Op.Length from cells.now.own }
{
    let array = cells.reference_at(0)?;
    Some(Request::Length { from, array })
}

fn thrown<M: Copy + Drop, R: Copy + Drop, N: Copy + Drop, V: Drop, H: Host<M, R, N, V>>(
    host: &H,
    cells: &Cells<R>,
    from: At,
) -> Option<Request<R, V>>
    ensures { result ≡ request_of (H.setting host.now) Op.Throw from cells.now.own }
{
    let object = cells.reference_at(0)?;
    Some(Request::ClassOf {
        from,
        object,
        within: host.program().throwable,
    })
}

fn cast<M: Copy + Drop, R: Copy + Drop, N: Copy + Drop, V: Drop, H: Host<M, R, N, V>>(
    host: &H,
    cells: &Cells<R>,
    class: u32,
    from: At,
) -> Option<Request<R, V>>
    ensures { result ≡ request_of (H.setting host.now) (Op.Cast class) from cells.now.own }
{
    let object = cells.reference_at(0)?;
    Some(Request::Cast {
        from,
        object,
        target: class,
    })
}

fn is_a<M: Copy + Drop, R: Copy + Drop, N: Copy + Drop, V: Drop, H: Host<M, R, N, V>>(
    host: &H,
    cells: &Cells<R>,
    class: u32,
    from: At,
) -> Option<Request<R, V>>
    ensures { result ≡ request_of (H.setting host.now) (Op.IsA class) from cells.now.own }
{
    let object = cells.reference_at(0)?;
    Some(Request::IsA {
        from,
        object,
        target: class,
    })
}

fn enter<M: Copy + Drop, R: Copy + Drop, N: Copy + Drop, V: Drop, H: Host<M, R, N, V>>(
    host: &H,
    cells: &Cells<R>,
    from: At,
) -> Option<Request<R, V>>
    ensures { result ≡ request_of (H.setting host.now) Op.Enter from cells.now.own }
{
    let object = cells.reference_at(0)?;
    Some(Request::Enter {
        from,
        key: Key::Object(object),
    })
}

fn exit<M: Copy + Drop, R: Copy + Drop, N: Copy + Drop, V: Drop, H: Host<M, R, N, V>>(
    host: &H,
    cells: &Cells<R>,
    from: At,
) -> Option<Request<R, V>>
    ensures { result ≡ request_of (H.setting host.now) Op.Exit from cells.now.own }
{
    let object = cells.reference_at(0)?;
    Some(Request::Exit {
        from,
        key: Key::Object(object),
    })
}

/// What an instruction asks, if it is a shared one whose operands are there.
pub fn asked<M: Copy + Drop, R: Copy + Drop, N: Copy + Drop, V: Drop, H: Host<M, R, N, V>>(
    host: &H,
    cells: &Cells<R>,
    op: Op,
    from: At,
) -> Option<Request<R, V>>
    ensures { result ≡ request_of (H.setting host.now) op from cells.now.own }
{
    match op {
        Op::InvokeStatic(method) => init(host, cells, method, from),
        Op::InvokeVirtual(selector) => receiver(host, cells, selector, from),
        Op::Element(Access::Load, kind) => get_element(host, cells, kind, from),
        Op::Element(Access::Store, kind) => put_element(host, cells, kind, from),
        Op::IfSame(equality, target) => same(host, cells, equality, target, from),
        Op::Static(Access::Load, field) => get_static(host, cells, field, from),
        Op::Static(Access::Store, field) => put_static(host, cells, field, from),
        Op::Field(Access::Load, field) => get_field(host, cells, field, from),
        Op::Field(Access::Store, field) => put_field(host, cells, field, from),
        Op::New(class) => Some(Request::New { from, class }),
        Op::NewArray(shape) => new_array(host, cells, shape, from),
        Op::Length => length(host, cells, from),
        Op::Throw => thrown(host, cells, from),
        Op::Cast(class) => cast(host, cells, class, from),
        Op::IsA(class) => is_a(host, cells, class, from),
        Op::Enter => enter(host, cells, from),
        Op::Exit => exit(host, cells, from),
        _ => None,
    }
}

/// How many cells an instruction takes once its request is done.
pub fn taken_by<M: Copy + Drop, R: Copy + Drop, N: Copy + Drop, V: Drop, H: Host<M, R, N, V>>(
    host: &H,
    op: Op,
) -> usize
    ensures { result ≡ taken_by (H.setting host.now) op }
{
    match op {
        Op::Element(Access::Load, _) => 2,
        Op::Element(Access::Store, kind) => 2 + width_of(kind),
        Op::Static(Access::Load, _) => 0,
        Op::Static(Access::Store, number) => width_of(field(host.program(), number).kind),
        Op::Field(Access::Load, _) => 1,
        Op::Field(Access::Store, number) => 1 + width_of(field(host.program(), number).kind),
        Op::NewArray(_) => 1,
        Op::Length => 1,
        Op::IsA(_) => 1,
        Op::Enter => 1,
        Op::Exit => 1,
        _ => 0,
    }
}
