ghost use Rattle.std.specs.Prelude.{◌≡◌};
ghost use Rattle.doc_server.specs.Serving.{code_of};

/// How the serving of a site ended.
#[derive(Clone, Copy, Debug, PartialEq, Eq)]
pub enum Ending {
    /// As many connections as were asked for were served.
    Served,
    /// The words are not a port and a number of connections.
    Usage,
    /// The input is no site text.
    Site,
    /// The input failed.
    Input,
    /// No connection could be given.
    Network,
    /// Memory ran out.
    Memory,
}

impl Ending {
    /// The exit code.
    pub fn code(self) -> u8
        ensures { result ≡ code_of self }
    {
        match self {
            Ending::Served => 0,
            Ending::Usage => 2,
            Ending::Site => 6,
            Ending::Input => 7,
            Ending::Network => 9,
            Ending::Memory => 10,
        }
    }
}
