//! Why a certificate could not be read.
ghost use Rattle.std.specs.Prelude.{◌≡◌, true};
ghost use Rattle.dds_fields.specs.Kinds.{is_common, IsCommon};
ghost use Rattle.dds_fields.specs.Gives.{flaw};
ghost use Rattle.dds_cert.specs.Faults.{kind_of, kind_entry, cert_flaw};

use dds_fields::fault::{FaultKind, ReadFault};

/// What is wrong with a certificate.
#[derive(Clone, Copy, Debug, PartialEq, Eq)]
pub enum CertKind {
    /// 1: the bytes are no TOML document, or not UTF-8.
    NotToml,
    /// 2: the version is another whole number than 1 and 2.
    WrongVersion,
    /// 3: a key that the document or an entry doesn't have.
    UnknownKey,
    /// 4: a required key isn't there. The `key` of an entry is required in version 1 alone.
    MissingKey,
    /// 5: a value of another kind, as a text for a number.
    WrongKind,
    /// 6: a weight or a bound outside 0 to 4,294,967,295.
    OutOfRange,
    /// 7: no such writer, reader or row, or a key outside the reader's filter or the writer's topic.
    UnknownName,
    /// 8: a name of a row, an endpoint with a key, or the reader of a total that stands twice. An entry without `key`
    /// stands for each key of its filter or topic.
    Duplicate,
    /// 9: more entries than a list may have. An entry without `key` counts once for each key that it stands for.
    TooMany,
    /// 10: a text that isn't 1 to 64 letters, digits, `_`, `.`, `/` and `-`.
    BadName,
}

impl CertKind {
    /// The number that reports give, 1 to 10.
    pub fn number(self) -> u8
        ensures { result ≡ (kind_entry self).0 }
    {
        match self {
            CertKind::NotToml => 1,
            CertKind::WrongVersion => 2,
            CertKind::UnknownKey => 3,
            CertKind::MissingKey => 4,
            CertKind::WrongKind => 5,
            CertKind::OutOfRange => 6,
            CertKind::UnknownName => 7,
            CertKind::Duplicate => 8,
            CertKind::TooMany => 9,
            CertKind::BadName => 10,
        }
    }

    /// The name that reports give.
    pub fn name(self) -> &'static str
        ensures { result.now ≡ (kind_entry self).1 }
    {
        match self {
            CertKind::NotToml => "NotToml",
            CertKind::WrongVersion => "WrongVersion",
            CertKind::UnknownKey => "UnknownKey",
            CertKind::MissingKey => "MissingKey",
            CertKind::WrongKind => "WrongKind",
            CertKind::OutOfRange => "OutOfRange",
            CertKind::UnknownName => "UnknownName",
            CertKind::Duplicate => "Duplicate",
            CertKind::TooMany => "TooMany",
            CertKind::BadName => "BadName",
        }
    }
}

/// The first fault of a certificate, and where it is.
#[derive(Debug, Drop)]
pub struct CertFlaw {
    pub kind: CertKind,
    /// Keys joined with `.`, places from 0 in brackets, as `rows[2].samples[0].key`. Empty for the whole document.
    pub path: String,
}

/// Why there is no certificate.
#[derive(Debug, Drop)]
pub enum CertFault {
    /// The first fault of the file.
    At(CertFlaw),
    /// Memory ran out.
    NoMemory,
}

fn cert_kind(kind: FaultKind) -> CertKind
    requires { is_common kind ≡ true }
    ensures { kind_of result ≡ kind }
{
    match kind {
        FaultKind::NotToml => CertKind::NotToml,
        FaultKind::WrongVersion => CertKind::WrongVersion,
        FaultKind::UnknownKey => CertKind::UnknownKey,
        FaultKind::MissingKey => CertKind::MissingKey,
        FaultKind::WrongKind => CertKind::WrongKind,
        FaultKind::OutOfRange => CertKind::OutOfRange,
        FaultKind::UnknownName => CertKind::UnknownName,
        FaultKind::Duplicate => CertKind::Duplicate,
        FaultKind::TooMany => CertKind::TooMany,
        FaultKind::BadName => CertKind::BadName,
        FaultKind::Qos | FaultKind::EndpointOwner | FaultKind::RuleEntry => unreachable!(),
    }
}

/// The fault of a certificate that this fault of a reading is.
pub(crate) fn cert_fault(fault: ReadFault) -> CertFault
    requires { IsCommon fault }
    ensures { cert_flaw result ≡ flaw fault }
{
    match fault {
        ReadFault::At(found) => CertFault::At(CertFlaw {
            kind: cert_kind(found.kind),
            path: found.path,
        }),
        ReadFault::NoMemory => CertFault::NoMemory,
    }
}
