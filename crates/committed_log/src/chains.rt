// The digest of several entries.
ghost use Rattle.std.specs.Prelude.{◌≡◌, fold};
ghost use Rattle.log_codec.specs.Writable.{CanBeWritten};
ghost use Rattle.committed_log.specs.Digest.{extended_by};
ghost use Rattle.committed_log.specs.Lawful.{AllWritable};

use crate::digest::extended;
use log_codec::Entry;

fn extend(digest: &mut [u8; 32], entry: &Entry)
    requires { CanBeWritten entry.now }
    ensures { digest.new ≡ extended_by digest.old entry.now }
{
    *digest = extended(*digest, entry);
}

/// The digest of a log with these entries more, where `first` is that of the log before them.
pub fn extended_over(first: [u8; 32], entries: &[Entry]) -> [u8; 32]
    requires { AllWritable entries.now }
    ensures { result ≡ fold extended_by first entries.now }
{
    let mut digest = first;
    for k in 0..entries.len() {
        extend(&mut digest, &entries[k]);
    }
    digest
}
