// The built-in methods that ask something of the heap.
ghost use Rattle.std.specs.Prelude.{◌≡◌, slice_index_or, None};
ghost use Rattle.natives.specs.Methods.{native_at};
ghost use Rattle.natives.specs.Groups.{group_natives};

/// A built-in method that asks something of the heap. The others do nothing.
#[derive(Clone, Copy)]
pub enum Native {
    /// `Object.equals`.
    ObjectEquals,
    /// `String.length`.
    StringLength,
    /// `String.charAt`.
    StringCharAt,
    /// `String.equals`.
    StringEquals,
    /// A StringBuilder's `<init>` without arguments.
    BuilderInit,
    /// A StringBuilder's `<init>` of a String.
    BuilderInitString,
    /// `StringBuilder.append` of an int.
    AppendInt,
    AppendLong,
    AppendChar,
    AppendBoolean,
    AppendString,
    AppendObject,
    /// `StringBuilder.toString`.
    BuilderToString,
    /// `PrintStream.print` of an int.
    PrintInt,
    PrintLong,
    PrintChar,
    PrintBoolean,
    PrintString,
    PrintObject,
    /// `PrintStream.println` of an int.
    PrintLineInt,
    PrintLineLong,
    PrintLineChar,
    PrintLineBoolean,
    PrintLineString,
    PrintLineObject,
    /// `PrintStream.println` without arguments.
    PrintLine,
    /// A Thread's `<init>` of a Runnable.
    ThreadInit,
    /// `Thread.start`.
    ThreadStart,
    /// `Thread.run`.
    ThreadRun,
    /// `Thread.join`.
    ThreadJoin,
    /// The `<init>` of a String of Throwable and of each built-in class below it.
    ThrowableInit,
    /// `Throwable.getMessage`.
    ThrowableGetMessage,
    /// `Region.begin`.
    RegionBegin,
    /// `Region.end`.
    RegionEnd,
}

/// Built-in classes by the methods that they declare.
#[derive(Clone, Copy)]
pub enum Group {
    /// Without methods that ask something.
    Silent,
    BelowThrowable,
    Object,
    PrintStream,
    Region,
    String,
    StringBuilder,
    Thread,
    Throwable,
}

static REGION: [Option<Native>; 2] = [Some(Native::RegionBegin), Some(Native::RegionEnd)];

static PRINT_STREAM: [Option<Native>; 13] = [
    Some(Native::PrintInt),
    Some(Native::PrintLong),
    Some(Native::PrintChar),
    Some(Native::PrintBoolean),
    Some(Native::PrintString),
    Some(Native::PrintObject),
    Some(Native::PrintLineInt),
    Some(Native::PrintLineLong),
    Some(Native::PrintLineChar),
    Some(Native::PrintLineBoolean),
    Some(Native::PrintLineString),
    Some(Native::PrintLineObject),
    Some(Native::PrintLine),
];

static OBJECT: [Option<Native>; 2] = [None, Some(Native::ObjectEquals)];

static STRING: [Option<Native>; 3] = [
    Some(Native::StringLength),
    Some(Native::StringCharAt),
    Some(Native::StringEquals),
];

static STRING_BUILDER: [Option<Native>; 9] = [
    Some(Native::BuilderInit),
    Some(Native::BuilderInitString),
    Some(Native::AppendInt),
    Some(Native::AppendLong),
    Some(Native::AppendChar),
    Some(Native::AppendBoolean),
    Some(Native::AppendString),
    Some(Native::AppendObject),
    Some(Native::BuilderToString),
];

static THREAD: [Option<Native>; 5] = [
    None,
    Some(Native::ThreadInit),
    Some(Native::ThreadStart),
    Some(Native::ThreadRun),
    Some(Native::ThreadJoin),
];

static THROWABLE: [Option<Native>; 3] = [
    None,
    Some(Native::ThrowableInit),
    Some(Native::ThrowableGetMessage),
];

static BELOW_THROWABLE: [Option<Native>; 2] = [None, Some(Native::ThrowableInit)];

// The built-in classes by place.
static BUILT_IN: [Group; 28] = [
    Group::Region,
    Group::PrintStream,
    Group::Silent,
    Group::BelowThrowable,
    Group::BelowThrowable,
    Group::BelowThrowable,
    Group::BelowThrowable,
    Group::Silent,
    Group::BelowThrowable,
    Group::BelowThrowable,
    Group::BelowThrowable,
    Group::BelowThrowable,
    Group::BelowThrowable,
    Group::BelowThrowable,
    Group::BelowThrowable,
    Group::BelowThrowable,
    Group::BelowThrowable,
    Group::BelowThrowable,
    Group::Object,
    Group::Silent,
    Group::BelowThrowable,
    Group::String,
    Group::StringBuilder,
    Group::BelowThrowable,
    Group::Silent,
    Group::Thread,
    Group::Throwable,
    Group::BelowThrowable,
];

fn native_in(natives: &[Option<Native>], method: u32) -> Option<Native>
    ensures { result ≡ slice_index_or natives.now method None }
{
    match natives.get(method as usize) {
        Some(native) => *native,
        None => None,
    }
}

fn native_of_group(group: Group, method: u32) -> Option<Native>
    ensures { result ≡ slice_index_or (group_natives group) method None }
{
    match group {
        Group::Silent => None,
        Group::Region => native_in(&REGION, method),
        Group::PrintStream => native_in(&PRINT_STREAM, method),
        Group::Object => native_in(&OBJECT, method),
        Group::String => native_in(&STRING, method),
        Group::StringBuilder => native_in(&STRING_BUILDER, method),
        Group::Thread => native_in(&THREAD, method),
        Group::Throwable => native_in(&THROWABLE, method),
        Group::BelowThrowable => native_in(&BELOW_THROWABLE, method),
    }
}

/// The native method of a built-in class, which is given by its place among them, at a method's
/// number there.
/// `None` where the method asks nothing, or isn't there.
pub fn native_of(place: u8, method: u32) -> Option<Native>
    ensures { result ≡ native_at place method }
{
    match BUILT_IN.get(usize::from(place)) {
        Some(group) => native_of_group(*group, method),
        None => None,
    }
}
