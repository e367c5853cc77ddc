ghost use Rattle.std.specs.Prelude.{◌≡◌, IfOk};

use rdf_terms::{Memory, TextBuf};

/// A host to connect to in place of each link's own.
#[derive(Debug, Drop)]
pub struct Via {
    pub host: TextBuf,
    pub port: u16,
}

/// How links are looked up.
#[derive(Debug, Drop)]
pub struct FetchSettings {
    /// How many links a fetcher looks up at a time, at least 1.
    pub lanes: u16,
    /// How often a look-up is tried, at least 1.
    pub tries: u8,
    /// The most bytes of a body.
    pub body: u64,
    pub via: Option<Via>,
}

impl Via {
    /// An equal value. Its text is shared with this one.
    pub fn copy(&self) -> Result<Via, Memory>
        ensures { IfOk result (λ via. via ≡ self.now) }
    {
        Ok(Via {
            host: self.host.copy()?,
            port: self.port,
        })
    }
}

fn copy_via(via: &Option<Via>) -> Result<Option<Via>, Memory>
    ensures { IfOk result (λ v. v ≡ via.now) }
{
    match via {
        None => Ok(None),
        Some(via) => Ok(Some(via.copy()?)),
    }
}

impl FetchSettings {
    /// Equal settings.
    pub fn copy(&self) -> Result<FetchSettings, Memory>
        ensures { IfOk result (λ settings. settings ≡ self.now) }
    {
        Ok(FetchSettings {
            lanes: self.lanes,
            tries: self.tries,
            body: self.body,
            via: copy_via(&self.via)?,
        })
    }
}
