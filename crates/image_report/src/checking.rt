// The text about an image.
ghost use Rattle.std.specs.Prelude.{◌≡◌, ◌++◌, length, codes, IfOk, OnOk};
ghost use Rattle.image_report.specs.Texts.{check_line, counted};

use crate::lines::put_counted;
use image_recovery::Recovered;
use line_image::Image;
use put_bytes::put_text;
use std::alloc::{AllocError, Global};

/// The line that `check` prints about a recovered image.
pub fn check_text<I: Image>(alloc: Global, found: &Recovered<I>) -> Result<Vec<u8>, AllocError>
    ensures text { IfOk result (λ out. out.items ≡ check_line found.now.version found.now.memory.size
        found.now.free (length found.now.graph.roots) (length found.now.graph.nodes) found.now.undone) }
{
    let mut out = Vec::new(alloc);
    put_counted(&mut out, b"version ", u64::from(found.version))?;
    put_counted(&mut out, b" lines ", found.memory.lines())?;
    put_counted(&mut out, b" free ", u64::from(found.free))?;
    put_found(
        &mut out,
        found.graph.roots().len(),
        found.graph.nodes().len(),
        found.undone,
    )?;
    Ok(out)
}

/// Puts how many roots and nodes were found, and in how many logs entries.
fn put_found(out: &mut Vec<u8>, roots: usize, nodes: usize, undone: u32) -> Result<(), AllocError>
    ensures { OnOk result (out.new.items ≡ out.old.items ++ (counted (codes " roots ") roots
        ++ counted (codes " nodes ") nodes ++ counted (codes " undone ") undone ++ codes "\n")) }
{
    put_counted(out, b" roots ", roots as u64)?;
    put_counted(out, b" nodes ", nodes as u64)?;
    put_counted(out, b" undone ", u64::from(undone))?;
    put_text(out, b"\n")
}
