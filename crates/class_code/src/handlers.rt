//! Exception entries (JVMS 2.10, 4.7.3).

ghost use Rattle.std.specs.Prelude.{◌≡◌, map, IfOk};
ghost use Rattle.class_code.specs.Codes.{caught, catch_of, handler_at};

use crate::indices::Indices;
use crate::resolving::class_of_entry;
use ap_base::ListOf;
use class_set::ClassSet;
use code_attribute::Handler as CodeHandler;
use const_pool::Pool;
use frames::{Catch, Handler, Link};
use run_types::LinkKind;
use std::alloc::{AllocError, Global};

fn caught(index: u16, class: Result<u32, LinkKind>) -> Catch
    ensures { result ≡ caught index class }
{
    match class {
        Ok(class) => Catch::Class(class),
        Err(kind) => Catch::Unlinked(Link { kind, index }),
    }
}

fn catch_of(set: &ClassSet, pool: &Pool, index: u16) -> Catch
    ensures { result ≡ catch_of set.now pool.now index }
{
    if index == 0 {
        return Catch::All;
    }
    caught(index, class_of_entry(set, pool, index))
}

fn handler_at(set: &ClassSet, pool: &Pool, indices: &Indices<'_>, handler: CodeHandler) -> Handler
    ensures { result ≡ handler_at set.now pool.now indices.now handler }
{
    Handler {
        start: indices.at(u32::from(handler.start)),
        end: indices.at(u32::from(handler.end)),
        target: indices.at(u32::from(handler.handler)),
        catches: catch_of(set, pool, handler.catch),
    }
}

/// The entries of a method's exception table, in indices.
pub(crate) fn handlers_at(
    alloc: Global,
    set: &ClassSet,
    pool: &Pool,
    indices: &Indices<'_>,
    handlers: &[CodeHandler],
) -> Result<ListOf<Handler>, AllocError>
    ensures { IfOk result
        (λ list. list ≡ map (handler_at set.now pool.now indices.now) handlers.now) }
{
    let mut list = Vec::new(alloc);
    for handler in handlers {
        list.push(handler_at(set, pool, indices, *handler))?;
    }
    Ok(ListOf::from_vec(list))
}
