// What acts print.
ghost use Rattle.std.specs.Prelude.{◌≡◌, Decides};
ghost use Rattle.std.specs.Option.{option_copied};
ghost use Rattle.plain_model.specs.Runs.{output_of, printed_by};
ghost use Rattle.printed_output.specs.Output.{behind, is_output};

use crate::laws::outputs_are_told;
use run_history::{Acts, Op};

/// What stands behind a piece, where the bytes begin with it.
fn behind<'a>(piece: &[u8], bytes: &'a [u8]) -> Option<&'a [u8]>
    ensures { option_copied result ≡ behind piece.now bytes.now }
{
    let mut left = piece;
    let mut rest = bytes;
    'piece: loop {
        match left {
            [] => return Some(rest),
            [first, further @ ..] => match rest {
                [] => return None,
                [byte, others @ ..] => {
                    if *first != *byte {
                        return None;
                    }
                    left = further;
                    rest = others;
                }
            },
        }
    }
}

/// What stands behind what an operation prints.
fn behind_print<'a>(op: &Op, bytes: &'a [u8]) -> Option<&'a [u8]>
    ensures { option_copied result ≡ behind (printed_by op.now) bytes.now }
{
    match *op {
        Op::Print { bytes: piece } => behind(piece.as_slice(), bytes),
        _ => Some(bytes),
    }
}

fn is_output(acts: &Acts, output: &[u8]) -> bool
    ensures { result ≡ is_output acts.now.acts output.now }
{
    let mut rest = output;
    let mut i = 0;
    'acts: while i < acts.len() {
        if let Some(act) = acts.get(i) {
            match behind_print(&act.op, rest) {
                None => return false,
                Some(further) => rest = further,
            }
        }
        i += 1;
    }
    rest.is_empty()
}

/// Whether these bytes are those of the Print acts, in order. Takes no memory.
pub fn prints(acts: &Acts, output: &[u8]) -> bool
    ensures { Decides result (output_of acts.now.acts ≡ output.now) }
{
    outputs_are_told();
    is_output(acts, output)
}
