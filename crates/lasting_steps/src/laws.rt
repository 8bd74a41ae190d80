//! Laws of what the acts of a plain run leave of classes and of stores that threads have asked. Each
//! function states some in its contract, and does nothing but cite others.

ghost use Rattle.lasting_steps.specs.Asking.{ActsKeepAsking, AskersLive, OtherActsKeepAsking};
ghost use Rattle.lasting_steps.specs.Passing.{AskedPlacesArePassed, AskedPlacesStayPassed};
ghost use Rattle.lasting_steps.specs.Passing.{AskedStoresNeverWait, StoresNeverWait};
ghost use Rattle.lasting_steps.specs.Passing.{ClassesStayPassed, ClassesStayPassedBy};
ghost use Rattle.lasting_steps.specs.Passing.{PassedStoresDontWait, StoresHavePassed};
ghost use Rattle.lasting_steps.specs.Staying.{AskedStoresStay, StoresOfObjectsStay};

/// A class that a thread may use, since it is initialised or the thread has begun that, it may use
/// after each act that may come next, of whatever thread, and so after many (JVMS 5.5): whoever has
/// asked a store waits for nothing in the plain world. Frames is the type of a thread's frames.
pub fn classes_stay_passed<Frames>()
    ensures one { ClassesStayPassed Frames }
    ensures many { ClassesStayPassedBy Frames }
    ensures never { StoresNeverWait Frames }
{}

/// A step that stores to a static field has passed the class of that field; and a request that
/// stores in one world waits in no world in which that class is passed.
pub fn stores_wait_for_no_passed_class()
    ensures stores { StoresHavePassed }
    ensures passed { PassedStoresDontWait }
{}

/// Whoever asks a store has passed the class that it stores to, and each act leaves it so: while its
/// request stays the one for which it asked, a thread whose asked value is pending waits for nothing
/// in the plain world.
pub fn asked_stores_never_wait<Frames>()
    ensures passed { AskedPlacesArePassed Frames }
    ensures stay { AskedPlacesStayPassed Frames }
    ensures never { AskedStoresNeverWait Frames }
{}

/// A step that stores an object stores it at the same place in each world that has grown and in
/// which the class is still passed; so an asked store stays the same, whatever other threads do.
pub fn asked_stores_stay<Frames>()
    ensures stores { StoresOfObjectsStay }
    ensures acts { AskedStoresStay Frames }
{}

/// While a thread has asked a value its request is the store for which it asked, in the present
/// world, whatever acts come, of it or of others: it lives, and waits for nothing.
pub fn askers_ask_their_stores<Frames>()
    ensures acts { ActsKeepAsking Frames }
    ensures others { OtherActsKeepAsking Frames }
    ensures live { AskersLive }
{}
