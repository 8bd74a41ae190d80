// Which operations a print may be.
ghost use Rattle.plain_machine.specs.Ops.{IsPrinting};

use natives::Request;
use run_history::Op;

/// How many first bytes of the piece that is asked an operation prints.
pub(crate) fn printing(request: &Request, op: &Op) -> Option<u32>
    ensures { IsPrinting request.now op.now result }
{
    if let Request::Print { piece, .. } = request {
        if let Op::Print { bytes } = op {
            let whole = piece.as_slice();
            let part = bytes.as_slice();
            let n = part.len();
            if n <= whole.len() && &whole[..n] == part {
                return Some(n as u32);
            }
        }
    }
    None
}
