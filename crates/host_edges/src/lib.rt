//! The host as source, image and sink: class files of a folder or one file, image files, standard output and a file to write.
#![tactic(auto)]

mod ahead;
mod file_image;
mod file_sink;
mod host_source;
mod opening;
mod out_sink;
mod streams;
mod trouble;

pub use file_image::FileImage;
pub use file_sink::FileSink;
pub use host_source::{HostSource, class_names};
pub use out_sink::OutSink;
pub use streams::hold_streams;
pub use trouble::Trouble;
