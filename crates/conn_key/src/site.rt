ghost use Rattle.std.specs.Prelude.{◌≡◌};

use std::marker::Model;

/// What connections are opened to: a host and a port. Contracts see it as that pair.
#[derive(Debug, Drop)]
pub struct Site {
    pub(crate) host: String,
    pub(crate) port: u16,
}

impl Model for Site {
    ghost use Rattle.std.specs.Prelude.{ℕ, List, string_bytes};

    ghost Value = { List ℕ × ℕ };

    ghost view = { λ site. (string_bytes site.host, site.port) };
}

impl Site {
    /// The host as a URL writes it: a name, an IPv4 address, or an IPv6 address in brackets.
    pub fn host(&self) -> &str
        ensures { result.now ≡ self.now.0 }
    {
        self.host.as_str()
    }

    pub fn port(&self) -> u16
        ensures { result ≡ self.now.1 }
    {
        self.port
    }
}
