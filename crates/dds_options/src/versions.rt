//! The versions of deployment files that a file of an earlier one can be turned into.
ghost use Rattle.std.specs.Prelude.{◌≡◌, ◌≤◌};
ghost use Rattle.dds_options.specs.Versions.{version_number};

/// A version of deployment files that another one goes before.
#[derive(Clone, Copy, Debug, PartialEq, Eq)]
pub enum LaterVersion {
    Second,
    Third,
    Fourth,
}

impl LaterVersion {
    /// The number that a file of this version has, 2 to 4.
    pub fn number(self) -> u32
        ensures number { result ≡ version_number self }
        ensures least { 2 ≤ result }
        ensures greatest { result ≤ 4 }
    {
        match self {
            LaterVersion::Second => 2,
            LaterVersion::Third => 3,
            LaterVersion::Fourth => 4,
        }
    }
}
