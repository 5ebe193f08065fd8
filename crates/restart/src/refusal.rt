// A disk that wasn't opened.
use flash_io::Disk;
use opened_store::OpenCause;

/// The disk that was to be opened, and why it wasn't.
#[derive(Drop)]
pub struct OpenError<D: Disk> {
    pub disk: D,
    pub cause: OpenCause,
}
