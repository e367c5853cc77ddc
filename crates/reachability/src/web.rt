ghost use Rattle.std.specs.Prelude.{◌≡◌, IfOk};

use link_uri::Heard;
use rdf_terms::{Memory, Seq, TextBuf};
use std::alloc::Global;

/// A web: a finite map from link texts to what is heard there, and what is heard at every other
/// link. Of entries with equal texts the first counts.
#[derive(Debug, Drop)]
pub struct Web {
    pub entries: Seq<(TextBuf, Heard)>,
    pub otherwise: Heard,
}

fn copy_entry(entry: &(TextBuf, Heard)) -> Result<(TextBuf, Heard), Memory>
    ensures { IfOk result (λ e. e ≡ entry.now) }
{
    let (text, heard) = entry;
    Ok((text.copy()?, heard.copy()?))
}

impl Web {
    /// An equal web. It costs the length of all that it answers.
    pub fn copy(&self, alloc: Global) -> Result<Web, Memory>
        ensures { IfOk result (λ web. web ≡ self.now) }
    {
        let mut entries = Vec::new(alloc);
        for entry in self.entries.as_slice() {
            entries.push(copy_entry(entry)?)?;
        }
        Ok(Web {
            entries: Seq::from_vec(entries),
            otherwise: self.otherwise.copy()?,
        })
    }
}
