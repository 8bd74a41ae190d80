// Where built-in methods stand first.
ghost use Rattle.std.specs.Prelude.{◌≡◌, true, false};
ghost use Rattle.natives.specs.Positions.{adds, shows, pair, begins_object, begins_at};
ghost use Rattle.natives.specs.Coded.{items};

use crate::Native;
use crate::objects::begins;
use crate::positions::{
    Builder, BuiltText, Equality, NewBuilder, ObjectText, Pair, Position, Purpose, Running, Single,
    Stream,
};
use crate::replies::{int_at, is_null, long_at, reference_at};
use crate::texts::{boolean_text, char_text, line_feed, null_text, number_text, string_text};
use ap_base::Item;

fn adds(args: &[Item]) -> Purpose
    ensures { result ≡ adds items args.now }
{
    Purpose::Append(Builder {
        builder: reference_at(args, 0),
        is_new: false,
    })
}

fn shows(args: &[Item], is_line: bool) -> Purpose
    ensures { result ≡ shows items args.now is_line }
{
    Purpose::Print(Stream {
        stream: reference_at(args, 0),
        is_line,
    })
}

fn pair(args: &[Item]) -> Pair
    ensures { result ≡ pair items args.now }
{
    Pair {
        left: reference_at(args, 0),
        right: reference_at(args, 1),
    }
}

fn begins_object(args: &[Item], purpose: Purpose) -> Position
    ensures { result ≡ begins_object items args.now purpose }
{
    let object = reference_at(args, 1);
    if is_null(object) {
        begins(purpose, null_text())
    } else {
        Position::ObjectText(ObjectText::IsString { purpose, object })
    }
}

/// Where a method stands that was given its arguments.
pub(crate) fn begins_at(method: Native, args: &[Item]) -> Position
    ensures { result ≡ begins_at items args.now method }
{
    let this = reference_at(args, 0);
    let that = reference_at(args, 1);
    let int = int_at(args, 1);
    match method {
        Native::ObjectEquals => Position::Single(Single::Same(pair(args))),
        Native::StringLength => Position::Single(Single::Length(this)),
        Native::StringCharAt => Position::Single(Single::CharAt {
            text: this,
            index: int,
        }),
        Native::StringEquals => Position::Equality(Equality::Same(pair(args))),
        Native::BuilderInit => new_builder(this, None),
        Native::BuilderInitString => new_builder(this, Some(string_text(that))),
        Native::AppendInt => begins(adds(args), number_text(i64::from(int))),
        Native::AppendLong => begins(adds(args), number_text(long_at(args, 1))),
        Native::AppendChar => begins(adds(args), char_text(int)),
        Native::AppendBoolean => begins(adds(args), boolean_text(int)),
        Native::AppendString => begins(adds(args), string_text(that)),
        Native::AppendObject => begins_object(args, adds(args)),
        Native::BuilderToString => Position::BuiltText(BuiltText::Count(this)),
        Native::PrintInt => begins(shows(args, false), number_text(i64::from(int))),
        Native::PrintLong => begins(shows(args, false), number_text(long_at(args, 1))),
        Native::PrintChar => begins(shows(args, false), char_text(int)),
        Native::PrintBoolean => begins(shows(args, false), boolean_text(int)),
        Native::PrintString => begins(shows(args, false), string_text(that)),
        Native::PrintObject => begins_object(args, shows(args, false)),
        Native::PrintLineInt => begins(shows(args, true), number_text(i64::from(int))),
        Native::PrintLineLong => begins(shows(args, true), number_text(long_at(args, 1))),
        Native::PrintLineChar => begins(shows(args, true), char_text(int)),
        Native::PrintLineBoolean => begins(shows(args, true), boolean_text(int)),
        Native::PrintLineString => begins(shows(args, true), string_text(that)),
        Native::PrintLineObject => begins_object(args, shows(args, true)),
        Native::PrintLine => begins(shows(args, false), line_feed()),
        Native::ThreadInit => Position::Single(Single::SetTarget {
            thread: this,
            target: that,
        }),
        Native::ThreadStart => Position::Single(Single::Start(this)),
        Native::ThreadRun => Position::Running(Running::Target(this)),
        Native::ThreadJoin => Position::Single(Single::Join(this)),
        Native::ThrowableInit => Position::Single(Single::SetMessage {
            throwable: this,
            message: that,
        }),
        Native::ThrowableGetMessage => Position::Single(Single::Message(this)),
        Native::RegionBegin => Position::Single(Single::Begin),
        Native::RegionEnd => Position::Single(Single::End),
    }
}

fn new_builder(builder: ap_base::Ref, text: Option<crate::texts::Text>) -> Position
    ensures { result ≡ Position.NewBuilder (NewBuilder.Array builder text) }
{
    Position::NewBuilder(NewBuilder::Array { builder, text })
}
