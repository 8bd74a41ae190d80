// The commands that have two images.
use crate::telling::{is_of_image, tell, tell_trouble};
use autopersist::Status;
use command_words::{Audit, Compact};
use host_edges::{FileImage, HostSource, OutSink};
use image_commands::{audit, compact};
use std::process::ExitCode;

/// Writes an image anew. The new file is made only where the old one can be opened.
pub(crate) fn compact_files(rt: HostRuntime, words: &Vec<String>, asked: &Compact) -> ExitCode {
    let Ok(old) = FileImage::at(&rt, rt.alloc(), asked.old.as_str(), None) else {
        return tell(rt.alloc(), rt.stderr(), &Status::OutOfMemory);
    };
    let lines = match old.trouble() {
        None => Some(u64::from(asked.lines)),
        Some(_) => None,
    };
    let Ok(fresh) = FileImage::at(&rt, rt.alloc(), asked.new.as_str(), lines) else {
        return tell(rt.alloc(), rt.stderr(), &Status::OutOfMemory);
    };
    let ended = compact(rt.alloc(), words, old, fresh, OutSink::new(rt));
    let code = tell(rt.alloc(), rt.stderr(), &ended.status);
    if is_of_image(&ended.status) {
        let trouble = ended.old.trouble();
        tell_trouble(
            rt.alloc(),
            rt.stderr(),
            "image",
            asked.old.as_str(),
            trouble,
        );
        if trouble.is_none() {
            let trouble = ended.fresh.trouble();
            tell_trouble(
                rt.alloc(),
                rt.stderr(),
                "image",
                asked.new.as_str(),
                trouble,
            );
        }
    }
    code
}

/// Audits a saved run.
pub(crate) fn audit_saved(rt: HostRuntime, words: &Vec<String>, asked: &Audit) -> ExitCode {
    let Ok(before) = FileImage::at(&rt, rt.alloc(), asked.before.as_str(), None) else {
        return tell(rt.alloc(), rt.stderr(), &Status::OutOfMemory);
    };
    let Ok(after) = FileImage::at(&rt, rt.alloc(), asked.after.as_str(), None) else {
        return tell(rt.alloc(), rt.stderr(), &Status::OutOfMemory);
    };
    let source = HostSource::folder(rt, rt.alloc(), asked.folder.as_str());
    let (history, output) = (asked.history.as_str(), asked.output.as_str());
    let records = HostSource::records(rt, rt.alloc(), history, output);
    let ended = audit(
        rt.alloc(),
        words,
        source,
        records,
        before,
        after,
        OutSink::new(rt),
    );
    let code = tell(rt.alloc(), rt.stderr(), &ended.status);
    if is_of_image(&ended.status) {
        let trouble = ended.before.trouble();
        tell_trouble(
            rt.alloc(),
            rt.stderr(),
            "image",
            asked.before.as_str(),
            trouble,
        );
        let trouble = ended.after.trouble();
        tell_trouble(
            rt.alloc(),
            rt.stderr(),
            "image",
            asked.after.as_str(),
            trouble,
        );
    }
    code
}
