// An image is opened, and what it holds is printed.
ghost use Rattle.std.specs.Prelude.{◌≡◌, ◌≢◌, Err, OnOk, IfErr};
ghost use Rattle.ap_base.specs.Causes.{next_count};
ghost use Rattle.image_opening.specs.Attached.{IsSettled};
ghost use Rattle.image_opening.specs.Stops.{KeepsItsGraph};
ghost use Rattle.image_report.specs.Reports.{HasPrinted, IsChecked, IsDumped, IsLeftOpen, IsUnreported, WasOpened};

use crate::checking::check_text;
use crate::dumping::dump_text;
use crate::not_reported::NotReported;
use ap_base::Sink;
use image_opening::{NotOpened, give_back, open_image};
use line_image::Image;
use put_bytes::put_all;
use std::alloc::Global;

/// What a command about an image came to, and what it was given.
#[derive(Drop)]
pub struct Reported<I: Image, S: Sink> {
    pub how: Result<(), NotReported>,
    pub image: I,
    pub sink: S,
}

/// Opens an image, and prints the line that `check` prints about it: its version, its lines, the first free one, how many durable
/// roots and nodes it has, and how many logs had entries. The text is made before any of it is put. A blank image is formatted. At
/// any stop the image stands for the graph for which it stood.
///
/// # Errors
///
/// Those of `open_image`, with nothing printed. `SinkFailed` exactly where the sink failed, once; a front of the text was printed
/// then. Want of memory, with nothing printed.
pub fn check_image<I: Image, S: Sink>(alloc: Global, image: I, mut sink: S) -> Reported<I, S>
    ensures printed { OnOk result.how (HasPrinted IsChecked (I.told image) (S.taken sink) (S.taken result.sink)) }
    ensures unreported { IfErr result.how (IsUnreported IsChecked (I.told image) (I.told result.image)
        (S.taken sink) (S.taken result.sink)) }
    ensures left { WasOpened result.how → IsLeftOpen (I.told image) (I.told result.image) }
    ensures stops { IsSettled (I.told image) → KeepsItsGraph (I.told image) (I.told result.image) }
    ensures size { (I.told result.image).size ≡ (I.told image).size }
    ensures image_fault { IfErr result.how (λ why. why ≡ NotReported.Unopened NotOpened.ImageFailed
        → I.faults result.image ≡ next_count (I.faults image)) }
    ensures image_spared { result.how ≢ Err (NotReported.Unopened NotOpened.ImageFailed)
        → I.faults result.image ≡ I.faults image }
    ensures sink_fault { IfErr result.how (λ why. why ≡ NotReported.SinkFailed
        → S.faults result.sink ≡ next_count (S.faults sink)) }
    ensures sink_spared { result.how ≢ Err NotReported.SinkFailed → S.faults result.sink ≡ S.faults sink }
{
    let found = match open_image(alloc, image) {
        Ok(found) => found,
        Err((why, image)) => {
            let how = Err(NotReported::Unopened(why));
            return Reported { how, image, sink };
        }
    };
    let text = match check_text(alloc, &found) {
        Ok(text) => text,
        Err(_) => {
            let (_, image) = give_back(found);
            let how = Err(NotReported::OutOfMemory);
            return Reported { how, image, sink };
        }
    };
    let (_, image) = give_back(found);
    match put_all(&mut sink, text.as_slice()) {
        Ok(()) => {
            let how = Ok(());
            Reported { how, image, sink }
        }
        Err(_) => {
            let how = Err(NotReported::SinkFailed);
            Reported { how, image, sink }
        }
    }
}

/// Opens an image, and prints the graph for which it stands. The image is given back, with all memory for its lines, before the
/// text is made, and the text is made before any of it is put. A blank image is formatted. At any stop the image stands for the
/// graph for which it stood.
///
/// # Errors
///
/// As with `check_image`.
pub fn dump_image<I: Image, S: Sink>(alloc: Global, image: I, mut sink: S) -> Reported<I, S>
    ensures printed { OnOk result.how (HasPrinted IsDumped (I.told image) (S.taken sink) (S.taken result.sink)) }
    ensures unreported { IfErr result.how (IsUnreported IsDumped (I.told image) (I.told result.image)
        (S.taken sink) (S.taken result.sink)) }
    ensures left { WasOpened result.how → IsLeftOpen (I.told image) (I.told result.image) }
    ensures stops { IsSettled (I.told image) → KeepsItsGraph (I.told image) (I.told result.image) }
    ensures size { (I.told result.image).size ≡ (I.told image).size }
    ensures image_fault { IfErr result.how (λ why. why ≡ NotReported.Unopened NotOpened.ImageFailed
        → I.faults result.image ≡ next_count (I.faults image)) }
    ensures image_spared { result.how ≢ Err (NotReported.Unopened NotOpened.ImageFailed)
        → I.faults result.image ≡ I.faults image }
    ensures sink_fault { IfErr result.how (λ why. why ≡ NotReported.SinkFailed
        → S.faults result.sink ≡ next_count (S.faults sink)) }
    ensures sink_spared { result.how ≢ Err NotReported.SinkFailed → S.faults result.sink ≡ S.faults sink }
{
    let found = match open_image(alloc, image) {
        Ok(found) => found,
        Err((why, image)) => {
            let how = Err(NotReported::Unopened(why));
            return Reported { how, image, sink };
        }
    };
    let (graph, image) = give_back(found);
    let text = match dump_text(alloc, &graph) {
        Ok(text) => text,
        Err(_) => {
            let how = Err(NotReported::OutOfMemory);
            return Reported { how, image, sink };
        }
    };
    match put_all(&mut sink, text.as_slice()) {
        Ok(()) => {
            let how = Ok(());
            Reported { how, image, sink }
        }
        Err(_) => {
            let how = Err(NotReported::SinkFailed);
            Reported { how, image, sink }
        }
    }
}
