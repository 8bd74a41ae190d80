// What has a monitor.

use ap_base::Ref;

/// What has a monitor: an object or a class (JVMS 2.11.10).
#[derive(Clone, Copy, Debug, PartialEq, Eq)]
pub enum Key<R = Ref> {
    Object(R),
    Class(u32),
}
