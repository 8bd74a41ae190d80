//! Laws of what an audit comes to. Each function states one in its contract, and does nothing.
ghost use Rattle.audit_call.specs.Laws.{OpenedImagesSuit, UnhinderedIsDone};

/// Where the class files link, the records are whole or missing, both images stand for graphs and suit the set, the class has a `main`, and
/// the history is well formed, the right verdict is put, but for failures and want of memory.
pub fn unhindered_is_done()
    ensures done { UnhinderedIsDone }
{}

/// An image that was opened for a class set and given back, and tells what is done to it, suits the set.
pub fn opened_images_suit()
    ensures suit { OpenedImagesSuit }
{}
