//! The manifest: a journal of edits on a disk, which a crash leaves with each commit whole or not
//! at all. What its bytes say stands in `manifest_form`.
#![tactic(auto)]

mod committing;
mod creating;
mod durable;
mod fault;
mod gated;
mod laws;
mod reading;
mod ready;
mod rolling;
mod shown;
mod staging;
mod steadying;
mod store;

pub use creating::create;
pub use fault::{CommitError, ManifestError};
pub use laws::{images_have_the_store, kept_elsewhere, one_new_image_is_unmade};
pub use reading::open;
pub use store::Manifest;
